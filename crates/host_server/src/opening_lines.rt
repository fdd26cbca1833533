//! What a run says if its store can't be opened, and its exit status then.
ghost use Rattle.std.specs.Prelude.{◌≡◌, ◌+◌, ◌≤◌, ◌++◌, codes, length};
ghost use Rattle.arrayvec.specs.ArrayString.{array_string_len};
ghost use Rattle.host_server.specs.OpeningLines.{detail_of, opening_line, shown_of};

use arrayvec::ArrayString;
use found_host::OpenFault;
use http_wire::decimal_text;

/// Each line fits in this many bytes.
const LONGEST: usize = 80;

/// The text of a fault, before the number or name of what is at fault.
fn name_of(fault: &OpenFault) -> &'static str
    ensures name { (shown_of fault.now).0 ≡ result.now ++ detail_of fault.now }
    ensures short { length result.now ≤ 25 }
{
    match fault {
        OpenFault::BadHeader => "journal: BadHeader",
        OpenFault::BadRecord(_) => "journal: BadRecord ",
        OpenFault::NotLegal(_) => "journal: NotLegal ",
        OpenFault::JournalDevice => "journal: Device",
        OpenFault::MissingBlob(_) => "blobs: MissingBlob ",
        OpenFault::DamagedBlob(_) => "blobs: DamagedBlob ",
        OpenFault::BlobsDevice => "blobs: Device",
        OpenFault::OutOfMemory => "out of memory",
    }
}

/// Appends the number or the name of the record, entry or file at fault.
fn push_detail(line: &mut ArrayString<LONGEST>, fault: &OpenFault)
    requires room { array_string_len line.old + 40 ≤ LONGEST }
    ensures bytes { line.new.bytes ≡ line.old.bytes ++ detail_of fault.now }
    ensures room { array_string_len line.new ≤ array_string_len line.old + 40 }
{
    match fault {
        OpenFault::BadRecord(number) | OpenFault::NotLegal(number) => {
            line.push_str(decimal_text(*number).as_str());
        }
        OpenFault::MissingBlob(digest) | OpenFault::DamagedBlob(digest) => {
            line.push_str(digest.to_hex().as_str());
        }
        _ => {}
    }
}

/// The line that says why a store can't be opened. Takes no memory.
pub fn line_of(fault: &OpenFault) -> ArrayString<LONGEST>
    ensures { result.bytes ≡ opening_line fault.now }
{
    let mut line = ArrayString::new();
    line.push_str("filehost: ");
    line.push_str(name_of(fault));
    push_detail(&mut line, fault);
    line.push_str("\n");
    line
}

/// The exit status if a store can't be opened.
pub fn status_of(fault: &OpenFault) -> u8
    ensures { result ≡ (shown_of fault.now).1 }
{
    match fault {
        OpenFault::BadHeader
        | OpenFault::BadRecord(_)
        | OpenFault::NotLegal(_)
        | OpenFault::JournalDevice => 3,
        OpenFault::MissingBlob(_) | OpenFault::DamagedBlob(_) | OpenFault::BlobsDevice => 4,
        OpenFault::OutOfMemory => 2,
    }
}
