// The whole listing.
ghost use Rattle.std.specs.Prelude.{◌≡◌, IfOk, string_bytes};
ghost use Rattle.listing.specs.Texts.{listing_text};

use crate::line::Line;
use std::alloc::{AllocError, Global};

const HEADER: &str = "shift\n";

// The text of a listing: the header, and a row for each line.
pub fn render(heap: Global, lines: &[Line]) -> Result<String, AllocError>
    ensures answer { IfOk result (λ s. string_bytes s ≡ listing_text lines.now) }
{
    let mut text = String::from_str(heap, HEADER)?;
    for line in lines {
        let row = format!(in heap; "{line}\n")?;
        text.push_str(row.as_str())?;
    }
    Ok(text)
}
