// The bytes of words, lowest first.
use std::test::Fail;
use words::bytes_of;

#[test]
fn bytes(rt: HostRuntime) -> Result<(), Fail> {
    let file = bytes_of(rt.alloc(), &[0x10084003, 0xF0000001])?;
    assert!(rt;
        file.as_slice() == [0x03, 0x40, 0x08, 0x10, 0x01, 0x00, 0x00, 0xF0].as_slice(),
        "two words, each lowest byte first"
    );
    Ok(())
}
