//! Uploads to a shelf in memory, stores that are opened over one, and what is read of them.
ghost use Rattle.std.specs.Prelude.{◌≡◌, IfOk, map};
ghost use Rattle.std.specs.List.Sorted.{IsStrictlySortedBy};
ghost use Rattle.std.specs.Map.{keys_of};
ghost use Rattle.host_names.specs.Digests.{digest_cmp};

use super::fixtures::{assert_text, halves};
use blob_store::{Blobs, LentShelf, MemShelf, OpenFault, ShelfName, UploadFault, Wanted};
use byte_view::{BlobInfo, Part};
use chunk_group::NodeFiles;
use host_names::Digest;
use http_wire::FieldText;
use range_reply::{IfRange, Parts, plan, read_body};
use range_spec::parse;
use std::alloc::{AllocError, Global};
use std::collections::BTreeMap;
use std::process::Abort;
use std::str;
use std::sync::Arc;
use std::test::Fail;

/// A file of so many bytes, no two pieces of which are the same.
fn file_of(alloc: Global, size: u32) -> Result<Vec<u8>, AllocError> {
    let mut file = Vec::new(alloc);
    for place in 0..size {
        file.push((place % 251) as u8)?;
    }
    Ok(file)
}

fn no_uploads(alloc: Global) -> Blobs<MemShelf> {
    Blobs::new(alloc, MemShelf::new(alloc))
}

/// What is told of an upload: how many pieces the file has, and whether they all have one name.
fn uploaded(alloc: Global, blobs: &mut Blobs<MemShelf>, file: &[u8]) -> Result<String, Fail> {
    match blobs.upload(file) {
        Ok(info) => {
            let first = info.names().first();
            let one = info.names().iter().all(|name| Some(name) == first);
            Ok(format!(in alloc; "{} pieces, one name: {one}", info.names().len())?)
        }
        Err(UploadFault::TooLarge) => Ok(String::from_str(alloc, "too large")?),
        Err(fault) => Err(Fail::from(fault)),
    }
}

/// Asserts what is told of uploads of the largest file, and of one that has a byte more.
fn assert_largest(
    rt: &impl Abort,
    alloc: Global,
    blobs: &mut Blobs<MemShelf>,
    zeros: &[u8],
) -> Result<(), Fail> {
    let largest = uploaded(alloc, blobs, zeros.get(1..).ok_or("no byte")?)?;
    assert_text(
        rt,
        "the largest file",
        largest.as_str(),
        "256 pieces, one name: true",
    );
    let larger = uploaded(alloc, blobs, zeros)?;
    assert_text(rt, "a byte more", larger.as_str(), "too large");
    Ok(())
}

#[test]
fn zeros_of_the_largest_file_have_one_name(rt: HostRuntime) -> Result<(), Fail> {
    let zeros = Vec::from_elem(rt.alloc(), 0u8, 16_777_217)?;
    assert_largest(
        &rt,
        rt.alloc(),
        &mut no_uploads(rt.alloc()),
        zeros.as_slice(),
    )
}

fn assert_owners(rt: &impl Abort, info: &Arc<BlobInfo>, wanted: usize) {
    assert_eq!(rt; Arc::strong_count(info), wanted);
}

/// Uploads a file twice: what is kept of it has an owner for each answer, and is kept once.
fn assert_kept_once(rt: &impl Abort, blobs: &mut Blobs<MemShelf>) -> Result<(), Fail> {
    let first = blobs.upload(b"hello")?;
    assert_owners(rt, &first, 2);
    let again = blobs.upload(b"hello")?;
    assert_owners(rt, &again, 3);
    Ok(())
}

#[test]
fn what_is_kept_of_a_file_is_kept_once(rt: HostRuntime) -> Result<(), Fail> {
    assert_kept_once(&rt, &mut no_uploads(rt.alloc()))
}

/// Each of these digests once, in the order of digests.
fn listed(alloc: Global, musts: &BTreeMap<Digest, bool>) -> Result<Vec<Wanted>, AllocError>
    ensures wanted { IfOk result (λ wanted. map (λ one. one.digest) wanted.items ≡ keys_of musts.now.entries) }
    ensures rising { IsStrictlySortedBy digest_cmp (keys_of musts.now.entries) }
{
    let mut wanted = Vec::new(alloc);
    for (digest, must) in musts {
        wanted.push(Wanted {
            digest: *digest,
            must: *must,
        })?;
    }
    Ok(wanted)
}

/// Each wanted digest once, in the order of digests. Its file must be there if one of those that want it says so.
fn in_order(alloc: Global, wanted: &[Wanted]) -> Result<Vec<Wanted>, AllocError>
    ensures { IfOk result (λ order. IsStrictlySortedBy digest_cmp (map (λ one. one.digest) order.items)) }
{
    let mut musts = BTreeMap::new(alloc);
    for one in wanted {
        let before = musts.get(&one.digest).copied().unwrap_or(false);
        musts.insert(one.digest, one.must || before)?;
    }
    listed(alloc, &musts)
}

/// What is told of a store that is opened: how many of the wanted files it knows, or why it isn't opened.
fn opened(alloc: Global, shelf: MemShelf, wanted: &[Wanted]) -> Result<String, AllocError>
    requires { IsStrictlySortedBy digest_cmp (map (λ one. one.digest) wanted.now) }
{
    let fault = match Blobs::open(alloc, shelf, wanted) {
        Ok(blobs) => {
            let known = wanted
                .iter()
                .filter(|one| blobs.find(&one.digest).is_some())
                .count();
            return format!(in alloc; "knows {known}");
        }
        Err(stop) => stop.fault,
    };
    match fault {
        OpenFault::MissingBlob(digest) => format!(in alloc; "missing {}", digest.to_hex().as_str()),
        OpenFault::DamagedBlob(digest) => format!(in alloc; "damaged {}", digest.to_hex().as_str()),
        OpenFault::Device => format!(in alloc; "device"),
        OpenFault::OutOfMemory => Err(AllocError),
    }
}

/// Asserts that each piece of a file is given as it was uploaded.
fn assert_chunks(
    rt: &impl Abort,
    alloc: Global,
    blobs: &mut Blobs<MemShelf>,
    file: &[u8],
) -> Result<(), Fail> {
    let info = blobs.upload(file)?;
    let mut joined: Vec<u8> = Vec::new(alloc);
    for name in info.names() {
        let chunk = blobs.chunk(name)?;
        joined.extend_from_slice(chunk.view().bytes())?;
    }
    assert_eq!(rt; joined.as_slice() == file, true);
    Ok(())
}

/// Uploads three files: one of a piece, one of none, and this one again.
fn upload_all(blobs: &mut Blobs<MemShelf>, file: &[u8]) -> Result<[Wanted; 3], Fail> {
    let one = blobs.upload(b"hello")?.digest();
    let none = blobs.upload(b"")?.digest();
    let all = blobs.upload(file)?.digest();
    Ok([one, none, all].map(|digest| Wanted { digest, must: true }))
}

#[test]
fn a_store_that_is_opened_again_knows_what_was_uploaded(rt: HostRuntime) -> Result<(), Fail> {
    let file = file_of(rt.alloc(), 131_073)?;
    let mut blobs = no_uploads(rt.alloc());
    assert_chunks(&rt, rt.alloc(), &mut blobs, file.as_slice())?;
    let wanted = upload_all(&mut blobs, file.as_slice())?;
    let order = in_order(rt.alloc(), &wanted)?;
    let known = opened(rt.alloc(), blobs.into_shelf(), order.as_slice())?;
    assert_text(&rt, "all", known.as_str(), "knows 3");
    Ok(())
}

/// A shelf that was lent for the uploads of the empty file, of `abc` and of `hello`, and on which the piece of `hello` is now `hellp`.
fn shelf(alloc: Global) -> Result<MemShelf, Fail> {
    let mut shelf = MemShelf::new(alloc);
    let mut blobs = Blobs::new(alloc, LentShelf::new(&mut shelf));
    blobs.upload(b"")?;
    blobs.upload(b"abc")?;
    let hello = blobs.upload(b"hello")?.digest();
    drop(blobs);
    shelf.keep(ShelfName::Part(hello), b"hellp")?;
    Ok(shelf)
}

/// The files of these texts, separated by spaces, `-` for the empty one. One with a mark before it must be there.
fn wanted(alloc: Global, row: &str) -> Result<Vec<Wanted>, Fail> {
    let mut wanted = Vec::new(alloc);
    for word in row.split(' ') {
        let (must, text) = match word.strip_prefix('!') {
            Some(text) => (true, text),
            None => (false, word),
        };
        let bytes = if text == "-" { "" } else { text };
        wanted.push(Wanted {
            digest: Digest::of_bytes(bytes.as_bytes()),
            must,
        })?;
    }
    Ok(wanted)
}

fn assert_opened(rt: &impl Abort, alloc: Global, row: &str, told: &str) -> Result<(), Fail> {
    let wanted = wanted(alloc, row)?;
    let order = in_order(alloc, wanted.as_slice())?;
    let text = opened(alloc, shelf(alloc)?, order.as_slice())?;
    assert_text(rt, row, text.as_str(), told);
    Ok(())
}

#[test]
fn what_must_be_there_is_judged_in_the_order_of_digests(rt: HostRuntime) -> Result<(), Fail> {
    // The SHA-1 of `world` is the least, then come those of `abc`, of `hello` and of the empty file.
    let rows = "\
!abc !- -> knows 2
hello !abc - -> knows 2
world -> knows 0
!hello abc -> damaged aaf4c61ddcc5e8a2dabede0f3b482cd9aea9434d
hello !hello -> damaged aaf4c61ddcc5e8a2dabede0f3b482cd9aea9434d
!hello hello -> damaged aaf4c61ddcc5e8a2dabede0f3b482cd9aea9434d
world !hello -> damaged aaf4c61ddcc5e8a2dabede0f3b482cd9aea9434d
!hello !world -> missing 7c211433f02071597741e6ff5a8ea34789abbf43
!world !hello -> missing 7c211433f02071597741e6ff5a8ea34789abbf43";
    for row in rows.lines() {
        let (wanted, told) = halves(row, " -> ")?;
        assert_opened(&rt, rt.alloc(), wanted, told)?;
    }
    Ok(())
}

/// What parts are told as, one after another: `text` and `lent`, with their bytes.
fn told(alloc: Global, parts: Parts<'_>) -> Result<String, Fail> {
    let mut told = String::new(alloc);
    for part in parts {
        let kind = match &part {
            Part::Text(_) => "text",
            Part::Lent(_) => "lent",
        };
        let bytes = str::from_utf8(part.bytes())?;
        told.push_str(format!(in alloc; "[{kind} {bytes}]")?.as_str())?;
    }
    Ok(told)
}

/// Asserts in which parts what is asked for of `hello world` is sent, read through a node over a store's shelf.
fn assert_read(
    rt: &impl Abort,
    alloc: Global,
    mut blobs: Blobs<MemShelf>,
    range: &str,
    wanted: &str,
) -> Result<(), Fail> {
    let info = blobs.upload(b"hello world")?;
    let (_, files) = blobs.into_parts();
    let mut node = NodeFiles::new(alloc, files).map_err(|_| "there is no memory for a node")?;
    let planned = plan(&info, &parse(range.as_bytes()), IfRange::Absent);
    let plain = FieldText::new("text/plain");
    let body = read_body(alloc, &mut node, &info, &planned, plain)?;
    let parts = told(alloc, body.parts())?;
    assert_text(rt, range, parts.as_str(), wanted);
    Ok(())
}

#[test]
fn a_range_is_read_through_a_node(rt: HostRuntime) -> Result<(), Fail> {
    assert_read(
        &rt,
        rt.alloc(),
        no_uploads(rt.alloc()),
        "bytes=6-",
        "[lent world]",
    )
}

#[test]
fn several_ranges_are_lent_between_their_heads(rt: HostRuntime) -> Result<(), Fail> {
    let boundary = "fh0-2aae6c35c94fcfb415dbe95f408b9ce91ee846ed";
    let wanted = format!(in rt.alloc();
        "[text --{boundary}\r\nContent-Type: ][lent text/plain]\
        [text \r\nContent-Range: bytes 0-0/11\r\n\r\n][lent h][lent \r\n]\
        [text --{boundary}\r\nContent-Type: ][lent text/plain]\
        [text \r\nContent-Range: bytes 10-10/11\r\n\r\n][lent d][lent \r\n]\
        [text --{boundary}--\r\n]"
    )?;
    assert_read(
        &rt,
        rt.alloc(),
        no_uploads(rt.alloc()),
        "bytes=0-0,-1",
        wanted.as_str(),
    )
}
