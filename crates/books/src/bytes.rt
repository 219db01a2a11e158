// A rights book of one byte a page.
ghost use Rattle.std.specs.Prelude.{◌≡◌, ◌/◌, ◌%◌};
ghost use Rattle.books.specs.Bytes.{byte_at, byte_right, byte_pool, byte_book};
ghost use Rattle.std.proofs.Common.{rules};

use platform::book::RightsBook;
use platform::guest::is_guest;
use platform::right::Right;
use platform::units::{BOOK_PAGES, Guest, Page};

// The high half of a byte is 4 bits up, and the low half is its last 4 bits.
const HALF_BITS: u32 = 4;

const LOW_HALF: u8 = 15;

// A high half that says that the low one names the owner of a pool.
const POOL: u8 = 15;

// The byte of page 0 first. In a byte with the halves h and l, guest h has write and guest l, if another, has read;
// where h is 15 the page is in the pool of guest l. Pages past the last byte give nothing.
#[derive(Drop)]
pub struct ByteBook {
    bytes: Vec<u8>,
}

// The high half of a byte.
fn high_half(byte: u8) -> u8
    ensures answer { result ≡ byte / 16 }
{
    byte >> HALF_BITS
}

// The low half of a byte.
fn low_half(byte: u8) -> u8
    ensures answer { result ≡ byte % 16 }
{
    byte & LOW_HALF
}

// What a byte gives a guest.
fn right_in(byte: u8, guest: Guest) -> Right
    ensures answer { result ≡ byte_right byte guest }
{
    let high = high_half(byte);
    let low = low_half(byte);
    if !is_guest(high) {
        Right::Nothing
    } else if guest == high {
        Right::Write
    } else if guest == low && is_guest(low) {
        Right::Read
    } else {
        Right::Nothing
    }
}

// The guest whose pool a byte puts its page in, if any.
fn pool_in(byte: u8) -> Option<Guest>
    ensures answer { result ≡ byte_pool byte }
{
    let low = low_half(byte);
    (high_half(byte) == POOL && is_guest(low)).then_some(low)
}

impl ByteBook {
    // The book that some bytes are.
    pub fn new(bytes: Vec<u8>) -> ByteBook
        ensures answer { byte_book result.bytes.items ≡ byte_book bytes.items }
    {
        ByteBook { bytes }
    }

    // The byte of a page: 0 where there is none, and from page 65,536 up.
    fn byte(&self, page: Page) -> u8
        ensures answer { result ≡ byte_at self.now.bytes.items page }
    {
        if page >= BOOK_PAGES {
            return 0;
        }
        self.bytes.get(page as usize).copied().unwrap_or(0)
    }
}

impl RightsBook for ByteBook {
    ghost rules = { λ b. byte_book b.bytes.items };

    ghost pools = { Prim.search rules };

    ghost writers = { Prim.search rules };

    ghost far = { Prim.search rules };

    ghost strangers = { Prim.search rules };

    fn right(&self, guest: Guest, page: Page) -> Right {
        right_in(self.byte(page), guest)
    }

    fn pool(&self, page: Page) -> Option<Guest> {
        pool_in(self.byte(page))
    }
}
