// Writing and reading at their limits: each reached, and passed by one.
ghost use Rattle.std.specs.Prelude.{◌≤◌, length};

use refusals::Refusal;
use std::io;
use test_tools::bytes::{FILLER, untouched};

// The first seven bytes of a file.
fn header(mark: &[u8; 3], version: u16, count: u16) -> [u8; 7] {
    let [p, t, h] = *mark;
    let [v, w] = version.to_be_bytes();
    let [c, d] = count.to_be_bytes();
    [p, t, h, v, w, c, d]
}

/// Whether the first `size` bytes are the file of these lines, and no other byte was written.
pub fn as_written(lines: &[u8], size: usize, out: &[u8]) -> bool {
    let Some((file, rest)) = out.split_at_checked(size) else {
        return false;
    };
    let Some((first, last)) = file.split_at_checked(7) else {
        return false;
    };
    let count = u16::try_from(lines.len() / 8);
    let headed = count.is_ok_and(|count| first == header(b"PTH", 1, count).as_slice());
    headed && last == lines && untouched(rest)
}

/// Writes into the first `room` bytes, all filled before.
pub fn write_in(lines: &[u8], out: &mut [u8], room: usize) -> Result<usize, Refusal>
    requires { room ≤ length out.old }
{
    out.fill(FILLER);
    proof_file::write(lines, &mut out[..room])
}

fn write_case(rt: &impl Print, lines: &[u8], out: &mut [u8; 65551], room: usize) -> io::Result<()>
    requires { room ≤ 65551 }
{
    print!(rt; "write {} bytes of lines into {room}: ", lines.len())?;
    match write_in(lines, out, room) {
        Ok(n) if as_written(lines, n, out) => println!(rt; "wrote {n}, the rest unchanged"),
        Err(r) if untouched(out) => println!(rt; "refused {}, all unchanged", r.number()),
        _ => println!(rt; "otherwise"),
    }
}

fn writes(rt: &impl Print, out: &mut [u8; 65551]) -> io::Result<()> {
    let lines = [90; 65544];
    write_case(rt, &lines[..0], out, 65551)?;
    write_case(rt, &lines[..9], out, 65551)?;
    write_case(rt, &lines[..9], out, 8)?;
    write_case(rt, &lines[..8], out, 14)?;
    write_case(rt, &lines[..8], out, 15)?;
    write_case(rt, &lines[..8], out, 17)?;
    write_case(rt, &lines[..65536], out, 65542)?;
    write_case(rt, &lines[..65536], out, 65543)?;
    write_case(rt, &lines[..65536], out, 65551)?;
    write_case(rt, &lines, out, 65551)
}

// What is handed back are the bytes after the seventh, or none.
fn show_read(rt: &impl Print, file: &[u8]) -> io::Result<()> {
    let lines = proof_file::read(file);
    match proof_file::read_reply(file) {
        Ok(()) if file.get(7..) == Some(lines) => {
            println!(rt; "readable, {} bytes handed back", lines.len())
        }
        Err(r) if lines.is_empty() => println!(rt; "refused {}, none handed back", r.number()),
        _ => println!(rt; "otherwise"),
    }
}

// A file of `size` bytes that begins with this header, as far as it goes.
fn read_case(
    rt: &impl Print,
    mark: &[u8; 3],
    version: u16,
    count: u16,
    size: usize,
) -> io::Result<()>
    requires { size ≤ 65551 }
{
    let mut file = [FILLER; 65551];
    file[..7].copy_from_slice(&header(mark, version, count));
    let [p, t, h] = mark.map(char::from);
    print!(rt; "{p}{t}{h} version {version} count {count} in {size} bytes: ")?;
    show_read(rt, &file[..size])
}

fn marks(rt: &impl Print) -> io::Result<()> {
    read_case(rt, b"XTH", 1, 1, 15)?;
    read_case(rt, b"PXH", 1, 1, 15)?;
    read_case(rt, b"PTH", 0, 1, 15)?;
    read_case(rt, b"PTH", 2, 1, 15)?;
    read_case(rt, b"PTH", 257, 1, 15)
}

// With its mark, and with another.
fn length(rt: &impl Print, count: u16, size: usize) -> io::Result<()>
    requires { size ≤ 65551 }
{
    read_case(rt, b"PTH", 1, count, size)?;
    read_case(rt, b"PTX", 1, count, size)
}

fn lengths(rt: &impl Print) -> io::Result<()> {
    length(rt, 1, 6)?;
    length(rt, 0, 7)?;
    length(rt, 1, 14)?;
    length(rt, 1, 15)?;
    length(rt, 1, 16)?;
    length(rt, 8192, 65542)?;
    length(rt, 8192, 65543)?;
    length(rt, 8192, 65544)?;
    length(rt, 8193, 65551)
}

pub fn all(rt: &impl Print) -> io::Result<()> {
    let mut out = [FILLER; 65551];
    writes(rt, &mut out)?;
    marks(rt)?;
    lengths(rt)
}
