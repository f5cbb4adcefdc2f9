use super::*;
use std::test::Fail;

#[test]
fn size_of_eight_bytes_that_all_go_on(rt: HostRuntime) -> Result<(), Fail> {
    let padded = b"\xf8\x86\x80\x80\x80\x80\x80\x80\x80\x00iamf\x00\x00";
    assert_eq!(rt; plain_fault(padded), Some(HeaderFault::Leb));
    let padded = b"\xf8\x86\x80\x80\x80\x80\x80\x80\x00iamf\x00\x00";
    assert_eq!(rt; plain_fault(padded), None);
    Ok(())
}

#[test]
fn sizes_past_the_limits(rt: HostRuntime) -> Result<(), Fail> {
    assert_eq!(rt;
        plain_fault(b"\xf8\x80\x80\x80\x80\x10"),
        Some(HeaderFault::Leb)
    );
    assert_eq!(rt;
        plain_fault(b"\xf8\xff\xff\xff\xff\x0f"),
        Some(HeaderFault::ObuSize)
    );
    Ok(())
}

#[test]
fn flags_before_the_cut(rt: HostRuntime) -> Result<(), Fail> {
    assert_eq!(rt; plain_fault(b"\xfa\x06iamf"), Some(HeaderFault::Flags));
    assert_eq!(rt; plain_fault(b"\xf8\x06iamf"), Some(HeaderFault::Cut));
    Ok(())
}

#[test]
fn whole_sequence_header(rt: HostRuntime) -> Result<(), Fail> {
    assert_eq!(rt; plain_fault(b"\xf8\x06iamf\x00\x00"), None);
    Ok(())
}

#[test]
fn trims_past_the_size(rt: HostRuntime) -> Result<(), Fail> {
    assert_eq!(rt; plain_fault(b"\x32\x01\x03"), Some(HeaderFault::HeaderSize));
    assert_eq!(rt;
        plain_fault(b"\x32\x01\x03\x00"),
        Some(HeaderFault::HeaderSize)
    );
    assert_eq!(rt; plain_fault(b"\x32\x02\x03\x00"), None);
    Ok(())
}
