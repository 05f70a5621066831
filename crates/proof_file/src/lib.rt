// Proof files: written into a lent buffer, read as a part of the caller's bytes.
#![tactic(auto)]

ghost use Rattle.std.specs.Prelude.{◌≡◌, ◌+◌, ◌≤◌, ◌<◌, ◌++◌, length, drop};
ghost use Rattle.proof_file.specs.File.{is_marked, is_counted, file_refusal, lines_in, header_of};
ghost use Rattle.proof_file.specs.Promises.{read_reply, Writes};

use refusals::Refusal;

fn put_header(out: &mut [u8], count: u16)
    requires { 7 ≤ length out.old }
    ensures { out.new ≡ header_of count ++ drop 7 out.old }
{
    let [high, low] = count.to_be_bytes();
    out[..7].copy_from_slice(&[b'P', b'T', b'H', 0, 1, high, low]);
}

// The file of these lines, which no rule is held against; gives the number of bytes.
pub fn write(lines: &[u8], out: &mut [u8]) -> Result<usize, Refusal>
    ensures { Writes lines.now out.old out.new result }
{
    let size = lines.len();
    if proof_check::bad_length(size) {
        return Err(Refusal::BadLength);
    }
    if out.len() < 7 + size {
        return Err(Refusal::ShortOutput);
    }
    put_header(out, (size / 8) as u16);
    out[7..7 + size].copy_from_slice(lines);
    Ok(7 + size)
}

#[tactic(auto, using(crate::proofs::FileLaws::mark_begins))]
fn is_marked(file: &[u8]) -> bool
    ensures { result ≡ is_marked file.now }
{
    file.starts_with(&[b'P', b'T', b'H', 0, 1])
}

#[tactic(auto, unfolding(crate::specs::File::is_counted))]
fn is_counted(file: &[u8]) -> bool
    requires { 7 ≤ length file.now }
    ensures { result ≡ is_counted file.now }
{
    let count = usize::from(proof_lines::pair(file, 5));
    count != 0 && count <= graph::LINES && file.len() == 7 + 8 * count
}

// Whether a file can be read, or the refusal: the call beside `read`.
#[tactic(auto, unfolding(crate::specs::File::file_refusal))]
pub fn read_reply(file: &[u8]) -> Result<(), Refusal>
    ensures { result ≡ read_reply (file_refusal file.now) }
{
    if file.len() < 7 {
        return Err(Refusal::BadFileLength);
    }
    if !is_marked(file) {
        return Err(Refusal::NotAProofFile);
    }
    if !is_counted(file) {
        return Err(Refusal::BadFileLength);
    }
    Ok(())
}

// The lines, as a part of the file's bytes; an empty part where the file can't be read.
pub fn read(file: &[u8]) -> &[u8]
    ensures { result.now ≡ lines_in file.now }
{
    if read_reply(file).is_err() {
        return &file[..0];
    }
    &file[7..]
}
