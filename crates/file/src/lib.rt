// Program files: the reader, which takes any bytes, and the writer, which takes any table.
#![tactic(auto)]

mod blocks;
mod checks;
mod fill;
mod layout;
pub mod word;

ghost use Rattle.std.specs.Prelude.{◌≡◌, ◌*◌, ◌≤◌, length};
ghost use Rattle.lists.specs.Tab.{padded};
ghost use Rattle.file.specs.Layout.{file_bytes};
ghost use Rattle.file.specs.Read.{read_of};
ghost use Rattle.file.specs.Reading.{read_answer, read_buffer};
ghost use Rattle.file.specs.Written.{written_of};
ghost use Rattle.file.specs.Writing.{write_answer, write_buffer};

use layout::{BLOCK, FILE_BYTES};
use table::{Check, Refusal, check_table};

// Reads a file into the words lent; a refusal leaves them as they were.
pub fn read_file(bytes: &[u8], words: &mut [u32]) -> Result<u32, Refusal>
    ensures answer { read_of result ≡ read_answer bytes.now (length words.old) }
    ensures buffer { words.new ≡ read_buffer bytes.now words.old }
{
    let lines = checks::answer(bytes, words.len())?;
    fill::fill(bytes, words, lines as usize);
    Ok(lines)
}

// Writes the file of a table's words, the rest zero, and gives its length in bytes.
fn write_blocks(ws: &[u32], out: &mut [u8]) -> u32
    requires { (length ws.now ≤ 5248) × (length out.old ≡ 22016) }
    ensures { (result ≡ length (file_bytes ws.now)) × (out.new ≡ padded 22016 (file_bytes ws.now)) }
{
    let n = (ws.len() / 4).div_ceil(31);
    for k in 0..n {
        blocks::put_block(ws, out, k);
    }
    out[BLOCK * n..].fill(0);
    (BLOCK * n) as u32
}

// Writes the file of a table into the bytes lent; the table's checks, then 14, and a refusal leaves them as they were.
pub fn write_file(words: &[u32], out: &mut [u8]) -> Result<u32, Refusal>
    ensures answer { written_of result ≡ write_answer words.now (length out.old) }
    ensures buffer { out.new ≡ write_buffer words.now out.old }
{
    check_table(words, false)?;
    if out.len() != FILE_BYTES {
        return Err(Refusal {
            check: Check::BufferSize,
            place: 0,
        });
    }
    Ok(write_blocks(words, out))
}
