// Reads the script.
use anyhow::{anyhow, ensure};
use hexadecimal::{HexError, decode, lines_before};
use std::alloc::Global;
use std::io::Read;
use std::{fs, io};

// The most bytes of a script that are read: one more than it may have, so that a longer one is seen.
const SCRIPT: u64 = 4096 + 1;

// The most bytes that a hexadecimal text may have.
const TEXT: u64 = 1 << 20;

// The bytes of the script in a file, or on standard input.
pub(crate) fn read_script(
    rt: &HostRuntime,
    hex: bool,
    file: Option<String>,
) -> anyhow::Result<Vec<u8>> {
    if !hex {
        return read_bytes(rt, file, SCRIPT);
    }
    let text = read_bytes(rt, file, TEXT + 1)?;
    ensure!(
        text.len() as u64 <= TEXT,
        "the text has over 1,048,576 bytes"
    );
    decode_text(rt.alloc(), text.as_slice())
}

// The first bytes of a file, or of standard input.
fn read_bytes(rt: &HostRuntime, file: Option<String>, limit: u64) -> anyhow::Result<Vec<u8>> {
    match file {
        None => Ok(read_all(rt.alloc(), rt.stdin(), limit)?),
        Some(path) => {
            read_file(rt, path.as_str(), limit).map_err(|error| anyhow!("{path}: {error}"))
        }
    }
}

// The first bytes of a file.
fn read_file(rt: &HostRuntime, path: &str, limit: u64) -> io::Result<Vec<u8>> {
    read_all(rt.alloc(), fs::open(rt, path)?, limit)
}

// The first bytes of a source.
fn read_all<R: Read + Drop>(heap: Global, source: R, limit: u64) -> io::Result<Vec<u8>> {
    let mut bytes = Vec::new(heap);
    let _ = source.take(limit).read_to_end(&mut bytes)?;
    Ok(bytes)
}

// The bytes that a hexadecimal text means.
fn decode_text(heap: Global, text: &[u8]) -> anyhow::Result<Vec<u8>> {
    let mut script = Vec::with_capacity(heap, text.len())?;
    decode(text, &mut script).map_err(|error| match error {
        HexError::NotHex { place } | HexError::HalfByte { place } => {
            let line = lines_before(text, place).saturating_add(1);
            anyhow!("line {line}: {error}")
        }
        HexError::NoMemory => anyhow!("no memory for the script"),
    })?;
    Ok(script)
}
