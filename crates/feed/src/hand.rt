// The reader by itself: it hands out the settled records, one after the other, to whatever steps by them.
ghost use Rattle.std.specs.Prelude.{◌≡◌, []};
ghost use Rattle.feed.specs.Handed.{reader_of, handed};

use crate::call::{found_bytes, removed};
use crate::format::{Kind, length_of};
use crate::reader::{find, held_count};
use crate::size::STORE;
use crate::values::padded;

// The tail of the feed: only the first `count` bytes of `held` count.
#[derive(Clone, Copy)]
pub struct Reader {
    pub held: [u8; STORE],
    pub count: usize,
}

// What is handed out: the settled record's kind, if one was settled, and its bytes, 0 in the places behind them; the bytes of the piece used;
// and the reader that goes on.
#[derive(Clone, Copy)]
pub struct Handed {
    pub used: usize,
    pub settled: Option<Kind>,
    pub bytes: [u8; STORE],
    pub reader: Reader,
}

impl Reader {
    // One that holds nothing.
    pub fn empty() -> Reader
        ensures { result ≡ reader_of [] }
    {
        Reader {
            held: [0; STORE],
            count: 0,
        }
    }

    // The next record, or none where the piece is used up before one is settled.
    pub fn next(self, piece: &[u8]) -> Handed
        ensures { result ≡ handed self piece.now }
    {
        let mut b = self.held;
        let n = held_count(self.count);
        b[n..].fill(0);
        let f = find(&mut b[..], n, piece, 0);
        let Some(kind) = f.settled else {
            let reader = Reader {
                held: b,
                count: f.count,
            };
            return Handed {
                used: f.used,
                settled: None,
                bytes: [0; STORE],
                reader,
            };
        };
        let long = length_of(kind);
        let bytes = padded(found_bytes(&b[..], piece, f.at, long));
        let left = removed(&mut b[..], f.at, f.count, long);
        let reader = Reader {
            held: b,
            count: left,
        };
        Handed {
            used: f.used,
            settled: Some(kind),
            bytes,
            reader,
        }
    }
}
