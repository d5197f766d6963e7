// The results of a call, written as words over a lent list.
ghost use Rattle.std.specs.Prelude.{◌≡◌, [], ◌∷◌, ◌+◌, ◌<◌, ◌≤◌, length};
ghost use Rattle.lists.specs.Part.{paste};
ghost use Rattle.scenario.specs.Format.{format};
ghost use Rattle.scenario.specs.Results.{words_of, flag_word};

use super::bits;

// The patterns of as many numbers as there are words.
fn write_numbers(words: &mut [u32], numbers: &[f32])
    requires { length words.old ≡ length numbers.now }
    ensures { words.new ≡ words_of format numbers.now }
{
    for (i, x) in numbers.iter().enumerate() {
        words[i] = bits::bits_of(*x);
    }
}

// The patterns of numbers, from word a on.
pub fn put_numbers(words: &mut [u32], a: usize, numbers: &[f32])
    requires { a + length numbers.now ≤ length words.old }
    ensures { words.new ≡ paste words.old a (words_of format numbers.now) }
{
    let e = a + numbers.len();
    write_numbers(&mut words[a..e], numbers);
}

pub fn put_float(words: &mut [u32], a: usize, x: f32)
    requires { a < length words.old }
    ensures { words.new ≡ paste words.old a (words_of format (x ∷ [])) }
{
    put_numbers(words, a, &[x]);
}

pub fn put_flag(words: &mut [u32], a: usize, flag: bool)
    requires { a < length words.old }
    ensures { words.new ≡ paste words.old a (flag_word flag ∷ []) }
{
    words[a] = u32::from(flag);
}
