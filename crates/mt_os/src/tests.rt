use crate::adapters::{ReaderSource, WriterSink};
use mt_outside::{Failed, Sink, Source};
use std::test::Fail;

#[test]
fn adapters_read_and_write(rt: HostRuntime) -> Result<(), Fail> {
    let mut into = [0u8; 4];
    let mut source = ReaderSource::new(Some(b"abcdef".as_slice()));
    assert_eq!(rt; source.read(&mut into), Ok(4));
    assert_eq!(rt; into.as_slice(), b"abcd".as_slice());
    assert_eq!(rt; source.read(&mut into), Ok(2));
    assert_eq!(rt; source.read(&mut into), Ok(0));

    let mut closed = ReaderSource::<&[u8]>::new(None);
    assert_eq!(rt; closed.read(&mut into), Err(Failed));

    let mut sink = WriterSink::new(Vec::new(rt.alloc()));
    assert_eq!(rt; sink.write(b"abc".as_slice()), Ok(3));
    Ok(())
}
