// Reads the script.
ghost use Rattle.std.specs.Prelude.{◌≡◌, [], IfOk, IfSome, Ok, take};
ghost use Rattle.hexadecimal.specs.Texts.{after, decoded};
ghost use Rattle.irscript.specs.Reading.{ScriptIn, most_read};

use anyhow::{anyhow, ensure};
use hexadecimal::{HexError, decode, lines_before};
use std::alloc::Global;
use std::io::Read;
use std::{fs, io};

// The most bytes that a script may have.
const SCRIPT: u64 = 4096;

// The most bytes that a hexadecimal text may have.
const TEXT: u64 = 1 << 20;

// The bytes of the script in a file, or on standard input.
pub(crate) fn read_script(
    rt: &HostRuntime,
    hex: bool,
    file: Option<String>,
) -> anyhow::Result<Vec<u8>> {
    let bytes = match file {
        None => read_source(rt.alloc(), rt.stdin(), hex)?,
        Some(path) => {
            read_file(rt, path.as_str(), hex).map_err(|error| anyhow!("{path}: {error}"))?
        }
    };
    script_in(rt.alloc(), hex, bytes)
}

// What is read of a file.
fn read_file(rt: &HostRuntime, path: &str, hex: bool) -> io::Result<Vec<u8>> {
    read_source(rt.alloc(), fs::open(rt, path)?, hex)
}

// What is read of a source: its bytes, but at most one more than a script, or a hexadecimal text, may have, so that a longer one is seen.
fn read_source<R: Read + Drop>(heap: Global, source: R, hex: bool) -> io::Result<Vec<u8>>
    ensures { IfOk result (λ bytes. IfSome (R.remaining source) (λ all. bytes.items ≡ take (most_read hex) all)) }
{
    let most = if hex { TEXT } else { SCRIPT };
    let mut bytes = Vec::new(heap);
    let _ = source.take(most + 1).read_to_end(&mut bytes)?;
    Ok(bytes)
}

// The script that these bytes are, or that they mean in hexadecimal.
fn script_in(heap: Global, hex: bool, bytes: Vec<u8>) -> anyhow::Result<Vec<u8>>
    ensures { IfOk result (λ script. ScriptIn hex bytes.items script.items) }
{
    if !hex {
        return Ok(bytes);
    }
    ensure!(
        bytes.len() as u64 <= TEXT,
        "the text has over 1,048,576 bytes"
    );
    decode_text(heap, bytes.as_slice())
}

// The bytes that a hexadecimal text means.
fn decode_text(heap: Global, text: &[u8]) -> anyhow::Result<Vec<u8>>
    ensures { IfOk result (λ script. after [] (decoded text.now) ≡ Ok script.items) }
{
    let mut script = Vec::with_capacity(heap, text.len())?;
    decode(text, &mut script).map_err(|error| match error {
        HexError::NotHex { place } | HexError::HalfByte { place } => {
            let line = lines_before(text, place).saturating_add(1);
            anyhow!("line {line}: {error}")
        }
        HexError::NoMemory => anyhow!("no memory for the script"),
    })?;
    Ok(script)
}
