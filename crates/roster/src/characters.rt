// Quotes, commas and line ends: each reader takes a text from its front on, and answers the text behind what it read.
ghost use Rattle.std.specs.Prelude.{◌≡◌, cond};
ghost use Rattle.std.proofs.Math.Option.{some};
ghost use Rattle.roster.specs.Csv.{quote, char, line_end};
ghost use Rattle.roster.specs.Code.{rest_found, separator};

pub const QUOTE: u8 = b'"';

pub const COMMA: u8 = b',';

pub const CARRIAGE_RETURN: u8 = b'\r';

pub const LINE_FEED: u8 = b'\n';

// The text behind a character.
#[tactic(auto, using(crate::proofs::Found::char_other, crate::proofs::Found::char_end))]
pub fn behind(text: &[u8], c: u8) -> Option<&[u8]>
    ensures { rest_found result ≡ char c text.now }
{
    let (first, rest) = text.split_first()?;
    if *first == c { Some(rest) } else { None }
}

// The text behind a line's end, which the last line may lack.
#[tactic(auto, using(crate::proofs::Chains::chains, crate::proofs::Found::not_end))]
fn behind_line(text: &[u8]) -> Option<&[u8]>
    ensures { rest_found result ≡ line_end text.now }
{
    if text.is_empty() {
        return Some(text);
    }
    behind(behind(text, CARRIAGE_RETURN)?, LINE_FEED)
}

// The text behind what ends a field: the end of the line, if the field is its last one, or a comma.
pub fn behind_separator(text: &[u8], last: bool) -> Option<&[u8]>
    ensures { rest_found result ≡ separator last text.now }
{
    if last {
        behind_line(text)
    } else {
        behind(text, COMMA)
    }
}

// The text behind the quote that ends a field, if one began it.
pub fn behind_quote(text: &[u8], quoted: bool) -> Option<&[u8]>
    ensures { rest_found result ≡ cond quoted (char quote text.now) (some text.now) }
{
    if quoted {
        behind(text, QUOTE)
    } else {
        Some(text)
    }
}
