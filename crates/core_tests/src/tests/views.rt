//! Chunks, and views of their bytes.
use super::fixtures::assert_holds;
use byte_view::Chunk;
use host_names::Digest;
use std::test::Fail;

#[test]
fn a_chunk_has_the_name_of_its_bytes(rt: HostRuntime) -> Result<(), Fail> {
    let abc = Digest::of_hex("a9993e364706816aba3e25717850c26c9cd0d89d")?;
    let chunk = Chunk::check(abc, Vec::from_slice(rt.alloc(), b"abc")?)?;
    let view = chunk.view();
    assert_holds(&rt, "abc", view.equal(b"abc"), true);
    assert_holds(&rt, "abd", view.equal(b"abd"), false);
    if view.len() != 3 {
        return Err(Fail::from("the view has another length"));
    }
    assert_holds(&rt, "its byte at 1", view.at(1) == b'b', true);
    assert_holds(&rt, "from 1 on", view.slice(1, 3).equal(b"bc"), true);
    match Chunk::check(abc, Vec::from_slice(rt.alloc(), b"abd")?) {
        Ok(_) => Err(Fail::from("other bytes have the name")),
        Err(wrong) => {
            assert_holds(
                &rt,
                "handed back",
                wrong.bytes.as_slice() == b"abd".as_slice(),
                true,
            );
            Ok(())
        }
    }
}
