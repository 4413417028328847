//! The certificate of one flight and one fare, read and written again.
use certificate_text::{CertFault, cert_text, read_cert};
use fare_law::List;
use std::alloc::Global;
use std::test::Fail;

const WRITTEN: &[u8] = br#"certificate 1
version 1
request {"best":3,"party":1,"sale":"2031-02-01","slices":[{"days":1,"first":"2031-03-03","from":"LON","to":"NYC"}]}
answers 1
answer 20000 1 0 QX Y1 0 0
rows 1
row 0 0 LON - 0 1 - 0:0:- 20000
end
"#;

/// The text of the certificate that a short text spells.
fn written_again(alloc: Global, text: &[u8]) -> Result<List<u8>, Fail> {
    if text.len() >= 1000 {
        return Err(Fail::new("a long text"));
    }
    let certificate = read_cert(alloc, text)?;
    Ok(cert_text(alloc, &certificate)?)
}

#[test]
fn is_written_again(rt: HostRuntime) -> Result<(), Fail> {
    let written = written_again(rt.alloc(), WRITTEN)?;
    assert_eq!(rt; written.as_slice(), WRITTEN);
    Ok(())
}

/// The fault of a short text.
fn fault(alloc: Global, text: &[u8]) -> Option<CertFault> {
    if text.len() < 1000 {
        read_cert(alloc, text).err()
    } else {
        None
    }
}

#[test]
fn ends_each_line_with_a_line_feed(rt: HostRuntime) {
    let found = fault(rt.alloc(), b"certificate 1");
    assert!(rt; found == Some(CertFault::Syntax { line: 1 }));
}
