// What a field that links or unlinks a node asks for: its value's parts, as numbers and as handles.
ghost use Rattle.std.specs.Prelude.{◌≡◌, Some, MatchResult};
ghost use Rattle.std.specs.List.{slice_get};
ghost use Rattle.std.specs.Option.{ok_or, option_zip};
ghost use Rattle.result.specs.declared.refusal.Refusal.TheVariants.{BadField, BadOrdinal};
ghost use Rattle.script.specs.Fields.{number_at};
ghost use Rattle.script.specs.Linkings.{NoLink, NoNumber, spot_asked, spot_given};

use crate::numbers::Numbers;
use linked_list::Spot;
use result::Refusal;

// A node to link, and where: by their numbers.
#[derive(Clone, Copy, Drop)]
pub(crate) struct Link {
    node: u16,
    spot: Spot<u16, u16>,
}

impl Link {
    // The parts of a value: a byte that says how, the node's number, and the target's.
    pub(crate) fn read(value: &[u8]) -> Result<Link, Refusal>
        ensures { MatchResult result
            (λ l. (NoLink value.now → ⊥) × (l.node ≡ number_at value.now 1) × (spot_asked value.now ≡ Some l.spot))
            (λ e. NoLink value.now × (e ≡ BadField)) }
    {
        let [how, high, low, target_high, target_low] = value else {
            return Err(Refusal::BadField);
        };
        let target = u16::from_be_bytes([*target_high, *target_low]);
        let spot = match *how {
            0 => Spot::AtFront(target),
            1 => Spot::AtBack(target),
            2 => Spot::Before(target),
            3 => Spot::After(target),
            _ => return Err(Refusal::BadField),
        };
        Ok(Link {
            node: u16::from_be_bytes([*high, *low]),
            spot,
        })
    }

    // The node and the spot that have these numbers.
    pub(crate) fn find<N: Copy, C: Copy>(
        self,
        inner: &Numbers<N>,
        outer: &Numbers<C>,
    ) -> Result<(N, Spot<N, C>), Refusal>
        ensures { result
            ≡ ok_or (option_zip (slice_get inner.now.handles.items self.node) (spot_given inner.now.handles.items outer.now.handles.items self.spot)) BadOrdinal }
    {
        let node = inner.get(self.node)?;
        let spot = match self.spot {
            Spot::AtFront(number) => Spot::AtFront(outer.get(number)?),
            Spot::AtBack(number) => Spot::AtBack(outer.get(number)?),
            Spot::Before(number) => Spot::Before(inner.get(number)?),
            Spot::After(number) => Spot::After(inner.get(number)?),
        };
        Ok((node, spot))
    }
}

// The number that is a whole value.
pub(crate) fn read_number(value: &[u8]) -> Result<u16, Refusal>
    ensures { MatchResult result
        (λ n. (NoNumber value.now → ⊥) × (n ≡ number_at value.now 0))
        (λ e. NoNumber value.now × (e ≡ BadField)) }
{
    let [high, low] = value else {
        return Err(Refusal::BadField);
    };
    Ok(u16::from_be_bytes([*high, *low]))
}
