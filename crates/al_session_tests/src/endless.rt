// A connection that does not end by itself.
use al_base::{Failed, Sink, Source};
use al_session::{Caller, Ended, serve_link};
use al_states::States;
use std::test::*;

/// The sink with nothing, the pool with 100,000, and an account with 2,500,000 microAlgos.
const GENESIS: &[u8; 245] =
    b"\x84\xa5alloc\x93\x82\xa4addr\xc4 \x01\x01\x01\x01\x01\x01\x01\x01\x01\x01\x01\x01\x01\x01\x01\x01\x01\x01\x01\x01\x01\x01\x01\x01\x01\x01\x01\x01\x01\x01\x01\x01\xa3row\x81\xa1a\x02\x82\xa4addr\xc4 \x02\x02\x02\x02\x02\x02\x02\x02\x02\x02\x02\x02\x02\x02\x02\x02\x02\x02\x02\x02\x02\x02\x02\x02\x02\x02\x02\x02\x02\x02\x02\x02\xa3row\x82\xa1a\x02\xa1b\xce\x00\x01\x86\xa0\x82\xa4addr\xc4 \x03\x03\x03\x03\x03\x03\x03\x03\x03\x03\x03\x03\x03\x03\x03\x03\x03\x03\x03\x03\x03\x03\x03\x03\x03\x03\x03\x03\x03\x03\x03\x03\xa3row\x81\xa1b\xce\x00&%\xa0\xa4fees\xc4 \x01\x01\x01\x01\x01\x01\x01\x01\x01\x01\x01\x01\x01\x01\x01\x01\x01\x01\x01\x01\x01\x01\x01\x01\x01\x01\x01\x01\x01\x01\x01\x01\xa2id\xa1t\xa3rwd\xc4 \x02\x02\x02\x02\x02\x02\x02\x02\x02\x02\x02\x02\x02\x02\x02\x02\x02\x02\x02\x02\x02\x02\x02\x02\x02\x02\x02\x02\x02\x02\x02\x02";

/// A request with no body.
const EMPTY: &[u8] = b"POST /v1/blocks HTTP/1.1\r\n\r\n";

/// A source of such requests without an end.
#[derive(Drop)]
struct Endless;

impl Source for Endless {
    ghost use Rattle.std.specs.Prelude.{None};

    ghost left = { λ _. None };

    ghost faults = { λ _. 0 };

    fn take(&mut self, buf: &mut [u8]) -> Result<usize, Failed> {
        let n = EMPTY.len().min(buf.len());
        buf[..n].copy_from_slice(&EMPTY[..n]);
        Ok(n)
    }
}

/// A sink that counts what it is given.
#[derive(Drop)]
struct Counting {
    puts: u64,
}

impl Sink for Counting {
    ghost use Rattle.std.specs.Prelude.{None};

    ghost written = { λ _. None };

    ghost faults = { λ _. 0 };

    fn put(&mut self, _bytes: &[u8]) -> Result<(), Failed> {
        self.puts = self.puts.saturating_add(1);
        Ok(())
    }
}

#[test]
fn a_million_requests(rt: HostRuntime) -> Result<(), Fail> {
    let alloc = rt.alloc();
    let Ok(mut states) = States::open(alloc, GENESIS) else {
        return Err(Fail::new("no states"));
    };
    let mut sink = Counting { puts: 0 };
    let mut caller = Caller::new();
    let ended = serve_link(alloc, &mut states, &mut caller, &mut Endless, &mut sink);
    assert_eq!(rt; (ended, sink.puts), (Ended::Spent, 1_000_000));
    Ok(())
}
