// One place: its version, whether it is in use, and the record that stands there.
ghost use Rattle.std.specs.Prelude.{◌≡◌};
ghost use Rattle.arena.specs.Pools.{live_slot, raised};

// A place is vacant until it is taken and after it is freed; one freed at the last version is retired.
#[derive(Clone, Copy, PartialEq, Eq)]
pub enum State {
    Vacant,
    Live,
    Retired,
}

// What is known of one place.
#[derive(Clone, Copy)]
pub struct Slot {
    pub version: u32,
    pub state: State,
}

// A place with what stands there; a record at a vacant place means nothing.
#[derive(Clone, Copy)]
pub struct Place<T> {
    pub(crate) slot: Slot,
    pub(crate) value: T,
}

impl Slot {
    // Whether the place is in use at this version.
    pub(crate) fn is_live(self, version: u32) -> bool
        ensures { result ≡ live_slot self version }
    {
        self.state == State::Live && self.version == version
    }

    // A place after it was freed at this version.
    pub(crate) fn raised(version: u32) -> Slot
        ensures { result ≡ raised version }
    {
        match version.checked_add(1) {
            Some(version) => Slot {
                version,
                state: State::Vacant,
            },
            None => Slot {
                version,
                state: State::Retired,
            },
        }
    }
}
