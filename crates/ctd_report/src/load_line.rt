//! The line of a program that is not read, put together in an array, so that nothing is allocated.

ghost use Rattle.std.specs.Prelude.{◌≡◌, ◌+◌, ◌≤◌, ◌++◌, codes, length};
ghost use Rattle.arrayvec.specs.ArrayVec.{array_vec_len};
ghost use Rattle.ctd_token.specs.FaultText.{load_fault_text};
ghost use Rattle.ctd_report.specs.inner.Report.{place_prefix};

use arrayvec::ArrayVec;
use ctd_token::{LoadFault, Place};
use itoa::Buffer;

/// How many bytes there is room for; the longest line has 81.
const ROOM: usize = 128;

/// Appends a text that there is room for.
fn append(line: &mut ArrayVec<u8, ROOM>, text: &[u8])
    requires { array_vec_len line.old + length text.now ≤ 128 }
    ensures items { line.new.items ≡ line.old.items ++ text.now }
    ensures len { array_vec_len line.new ≡ array_vec_len line.old + length text.now }
{
    let _ = line.try_extend_from_slice(text);
}

/// Appends a place and the colon behind it, where there is a place.
fn append_place(line: &mut ArrayVec<u8, ROOM>, place: Option<Place>)
    requires { array_vec_len line.old ≤ 15 }
    ensures items { line.new.items ≡ line.old.items ++ place_prefix place }
    ensures len { array_vec_len line.new ≤ array_vec_len line.old + 43 }
{
    let Some(place) = place else {
        return;
    };
    append(line, b"program line ");
    append(line, Buffer::new().format(place.line).as_bytes());
    append(line, b" column ");
    append(line, Buffer::new().format(place.column).as_bytes());
    append(line, b": ");
}

/// The line of a program that is not read.
pub(crate) fn load_line_of(fault: &LoadFault) -> ArrayVec<u8, ROOM>
    ensures { result.items ≡ codes "checktestdata: " ++ load_fault_text fault.now ++ codes "\n" }
{
    let mut line = ArrayVec::new();
    append(&mut line, b"checktestdata: ");
    append_place(&mut line, fault.place);
    append(&mut line, fault.kind.text().as_bytes());
    append(&mut line, b"\n");
    line
}
