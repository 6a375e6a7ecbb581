// Files, a source and a sink in memory, where one call of several fails.

use crate::outcome::{put_bytes, put_fetched};
use cases::Page;
use mz_base::Memory;
use mz_io::{Files, MemFiles, MemSink, MemSource, Sink, Source, Took};
use std::alloc::{AllocError, Global};

fn file(alloc: Global, name: &str, text: &[u8]) -> Result<(String, Vec<u8>), AllocError> {
    Ok((String::from_str(alloc, name)?, text.to_vec(alloc)?))
}

/// Two files of one name, of which the first counts.
fn files(alloc: Global, fails: u64) -> Result<MemFiles, AllocError> {
    let texts = vec![in alloc;
        file(alloc, "m.mzn", b"solve")?,
        file(alloc, "m.mzn", b"other")?,
    ]?;
    Ok(MemFiles::new(texts, vec![in alloc; fails]?))
}

pub fn print_fetches(alloc: Global, page: &mut Page) -> Result<(), Memory> {
    page.line("# a fetch that fails changes no other");
    for fails in 0..5 {
        let mut files = files(alloc, fails)?;
        page.put("fetch ");
        page.put(fails);
        page.put(" fails:");
        for (name, limit) in [
            ("m.mzn", 5),
            ("m.mzn", 4),
            ("m.dzn", 5),
            ("m.mzn", u64::MAX),
            ("", 0),
        ] {
            page.put(" ");
            put_fetched(page, files.fetch(alloc, name, limit));
        }
        page.line("");
    }
    Ok(())
}

fn put_took(page: &mut Page, took: Took, bytes: &[u8]) {
    match took {
        Took::Some(n) if n <= bytes.len() => put_bytes(page, &bytes[..n]),
        took => page.show(took),
    }
}

pub fn print_takes(alloc: Global, page: &mut Page) -> Result<(), Memory> {
    page.line("# a take that fails leaves the bytes, which come by three at most");
    for fails in 0..6 {
        let bytes = b"abcdefg".to_vec(alloc)?;
        let mut source = MemSource::new(bytes, 3, vec![in alloc; fails]?);
        page.put("take ");
        page.put(fails);
        page.put(" fails:");
        for _ in 0..6 {
            let mut buffer = [0; 4];
            let took = source.take(&mut buffer);
            page.put(" ");
            put_took(page, took, &buffer);
        }
        page.line("");
    }
    Ok(())
}

pub fn print_puts(alloc: Global, page: &mut Page) -> Result<(), Memory> {
    page.line("# a put that fails holds none of its bytes");
    for fails in [0, 1, 2, 3, 9] {
        let mut sink = MemSink::new(alloc, vec![in alloc; fails]?);
        page.put("put ");
        page.put(fails);
        page.put(" fails:");
        for piece in [b"a".as_slice(), b"b", b"c", b"", b"de"] {
            page.put(" ");
            page.show(sink.put(piece));
        }
        page.put(", holds ");
        put_bytes(page, sink.bytes());
        page.line("");
    }
    Ok(())
}
