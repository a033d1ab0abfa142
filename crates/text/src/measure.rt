// What a size takes from a text.
ghost use Rattle.std.specs.Prelude.{◌≡◌, ◌+◌, ◌<◌, true, length};
ghost use Rattle.text.specs.Promises.{text_size};

use super::{count_feeds, next_feed_bytewise};

// The letters of a text's longest line, and its line count.
#[derive(Clone, Copy)]
pub struct TextSize {
    pub width: usize,
    pub height: usize,
}

// The longest line and the line count: `get_text_dimension`. There is one line more than line feeds. The count must fit a number.
pub fn text_size(text: &[u8]) -> TextSize
    requires { length text.now + 1 < 18446744073709551616 }
    ensures { result ≡ text_size text.now }
{
    let c = count_feeds(text);
    TextSize {
        width: c.longest,
        height: c.feeds + 1,
    }
}

// Whether the text has under 8 bytes and no line feed.
pub fn is_short(text: &[u8]) -> bool
    ensures { result ≡ true → text_size text.now ≡ record { width = length text.now; height = 1 } }
{
    text.len() < 8 && next_feed_bytewise(text, 0) == text.len()
}
