// Document 01, "Scenario program": one code.
ghost use Rattle.std.specs.Prelude.{◌≡◌, take};
ghost use Rattle.grammar.specs.Layout as layout;
ghost use Rattle.stream.specs.Code as code;

use super::Code;
use grammar::Verdict;
use grammar::layout::CODE_WORDS;
use numbers::Number;

// The code that the first n words belong to, 0 where there are none.
fn shown(words: &[u32; CODE_WORDS], n: usize) -> u32
    ensures { result ≡ code.shown (take n words.now) }
{
    if n > 0 { words[0] } else { 0 }
}

// What stands at the start of the bytes; its words go into the lent ones.
pub fn read_code(bytes: &[u8], words: &mut [u32; CODE_WORDS]) -> Code
    ensures { code.Reads layout.WIDTHS bytes.now words.old words.new result }
{
    let mut place = grammar::fields::start();
    let mut n = 0usize;
    let mut taken = 0usize;
    let code = loop {
        let number = numbers::read_number(grammar::fields::width_at(place), &bytes[taken..]);
        match number {
            Number::Value(word, length) => {
                words[n] = word;
                n += 1usize;
                taken += length;
                place = grammar::fields::next(place, word);
                let verdict = grammar::fields::verdict(place);
                match verdict {
                    Verdict::More => {}
                    Verdict::Whole => break Code::Whole(n, taken),
                    Verdict::Bad => break Code::Malformed(shown(words, n)),
                }
            }
            Number::Short => break Code::Short(shown(words, n)),
            Number::Bad => break Code::Malformed(shown(words, n)),
        }
    };
    code
}
