// Document 01, "Scenario program": one number.
#![tactic(auto)]

ghost use Rattle.std.specs.Prelude.{◌≤◌, ◌≡◌};
ghost use Rattle.numbers.specs.Layout as layout;
ghost use Rattle.numbers.specs.Number.{bad_group, read_number};

// What stands at the start of some bytes: a number and how many bytes it takes; too few bytes; or no number.
#[derive(Clone, Copy)]
pub enum Number {
    Value(u32, usize),
    Short,
    Bad,
}

// A group of a number holds so many bits, and a byte from GROUP on has its top bit set.
const GROUP_BITS: u32 = 7;

const GROUP: u8 = 128;

// The last group that so many bits reach into, counted from 0.
fn last(bits: u32) -> usize
    ensures { result ≡ layout.last bits }
{
    (bits / GROUP_BITS) as usize
}

// The most that it holds.
fn last_most(bits: u32) -> u8
    ensures { result ≡ layout.last_most bits }
{
    (1u8 << (bits % GROUP_BITS)) - 1
}

// Whether the k-th group of a number of so many bits, counted from 0, cannot be b.
#[tactic(auto, unfolding(crate::specs::Number::bad_group, lists::specs::Pick::pick))]
fn bad_group(bits: u32, k: usize, b: u8) -> bool
    ensures { result ≡ bad_group bits k b }
{
    if b == 0 {
        k > 0
    } else if k == last(bits) {
        b > last_most(bits)
    } else {
        false
    }
}

// What stands at the start of the bytes: a number of at most so many bits, which a word holds. `unit` is what the next group's lowest bit is worth.
pub fn read_number(bits: u32, bytes: &[u8]) -> Number
    requires { bits ≤ 32 }
    ensures { result ≡ read_number bits bytes.now }
{
    let mut k = 0usize;
    let mut unit = 1u32;
    let mut value = 0u32;
    let number = loop {
        if k >= bytes.len() {
            break Number::Short;
        }
        let b = bytes[k];
        if bad_group(bits, k, b) {
            break Number::Bad;
        }
        value += u32::from(b % GROUP) * unit;
        k += 1usize;
        if b < GROUP {
            break Number::Value(value, k);
        }
        unit *= u32::from(GROUP);
    };
    number
}
