// Numbers that a call is handed, brought into their range.
ghost use Rattle.std.specs.Prelude.{◌≡◌, Bool, ◌&&◌, map, length, Ok, nat_le};
ghost use Rattle.std.specs.List.{list_all};
ghost use Rattle.semantics.specs.declared.refusal.Refusal.TheVariants.{ArgumentOutOfRange};
ghost use Rattle.semantics.specs.Cards.{signature, signature_in_range};
ghost use Rattle.semantics.specs.Entries.{entry_of};
ghost use Rattle.semantics.specs.Form.{must};
ghost use Rattle.semantics.specs.Items.{items_of};
ghost use Rattle.semantics.specs.Reading.{so};
ghost use Rattle.verifier.specs.Answers.{answered};

use semantics::array_vec::ArrayVec;
use semantics::entry::Entry;
use semantics::refusal::Refusal;

const MAX_CLASS: u32 = 63;

const MAX_ARGUMENTS: usize = 7;

// What a call is handed: a number, or numbers, of which only some are in range.
// Not a `TryFrom`: a class has no type of its own, and `u8: TryFrom<u32>` is the library's, with another limit.
pub trait Handed {
    type Small: Copy;

    ghost allowed: { Self → Bool };

    ghost taken: { Self → Self.Small };

    fn small(&self) -> Result<Self::Small, Refusal>
        ensures { result ≡ so (must (allowed self.now) ArgumentOutOfRange) (λ _. Ok (taken self.now)) };
}

// A class, at most 63.
impl Handed for u32 {
    type Small = u8;

    ghost allowed = { λ class. nat_le class 63 };

    ghost taken = { λ class. class };

    fn small(&self) -> Result<u8, Refusal> {
        if *self > MAX_CLASS {
            return Err(Refusal::ArgumentOutOfRange);
        }
        Ok(*self as u8)
    }
}

// The arguments of a call. The filler stands where none does, and means nothing.
pub fn all_small<H: Handed>(
    handed: &[H],
    filler: H::Small,
) -> Result<ArrayVec<H::Small, 7>, Refusal>
    ensures { answered items_of result ≡ so (must (list_all H.allowed handed.now && nat_le (length handed.now) 7) ArgumentOutOfRange) (λ _. Ok (map H.taken handed.now)) }
{
    if handed.len() > MAX_ARGUMENTS {
        return Err(Refusal::ArgumentOutOfRange);
    }
    let mut list = ArrayVec::new(filler);
    for one in handed {
        let _ = list.push(one.small()?);
    }
    Ok(list)
}

// The entry of a native row, by the numbers of its call.
#[tactic(auto, using(crate::proofs::Ranges::signature_tests))]
pub fn entry_of(class: u32, name: u32, arguments: &[u32], res: u32) -> Result<Entry, Refusal>
    ensures { answered entry_of result ≡ so (must (signature_in_range (signature class name arguments.now res)) ArgumentOutOfRange) (λ _. Ok (signature class name arguments.now res)) }
{
    Ok(Entry {
        class: class.small()?,
        name: u8::try_from(name).map_err(|_| Refusal::ArgumentOutOfRange)?,
        arguments: all_small(arguments, 0)?,
        result: res.small()?,
    })
}
