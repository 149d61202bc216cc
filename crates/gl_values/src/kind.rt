//! Kinds of columns.

ghost use Rattle.std.specs.Prelude.{◌≡◌, ◌-ℤ◌, ◌<◌, ◌≤◌, ◌^◌, int_lt, nat_lt, pos};
ghost use Rattle.gl_values.specs.Kinds as spec;
ghost use Rattle.gl_values.specs.Kinds.{IsKind};

use gl_bits::word::wrapped;

/// What the values of a kind are.
#[derive(Clone, Copy, PartialEq, Eq, Hash, Debug)]
pub enum Family {
    /// Numbers, which are added and multiplied.
    Numbers,
    /// Texts.
    Texts,
}

/// What a column holds.
#[derive(Clone, Copy, PartialEq, Eq, Hash, Debug)]
pub enum Kind {
    /// An unsigned number of 1 to 64 bits, written `u1` to `u64`.
    Unsigned(u8),
    /// A number with a sign, of 2 to 64 bits in two's complement.
    Signed(u8),
    /// A text of at most 1 to 8 bytes 0x20 to 0x7E, written `text1` to `text8`: the first byte
    /// stands highest, and zero bytes pad it on the right.
    Text(u8),
}

impl Kind {
    /// The bits of a value.
    pub fn bits(self) -> u16
        ensures value { result ≡ spec.width_of self }
        ensures below { result < 2 ^ 12 }
    {
        match self {
            Kind::Unsigned(width) | Kind::Signed(width) => u16::from(width),
            Kind::Text(bytes) => 8 * u16::from(bytes),
        }
    }

    /// What the values are.
    pub fn family(self) -> Family
        ensures { result ≡ spec.family_of self }
    {
        match self {
            Kind::Unsigned(_) | Kind::Signed(_) => Family::Numbers,
            Kind::Text(_) => Family::Texts,
        }
    }

    // The fewest bits that the kind may have.
    fn fewest(self) -> u16
        ensures { result ≡ spec.fewest self }
    {
        match self {
            Kind::Unsigned(_) => 1,
            Kind::Signed(_) => 2,
            Kind::Text(_) => 8,
        }
    }

    /// Whether the values have a sign.
    pub fn is_signed(self) -> bool
        ensures { result ≡ spec.is_signed self }
    {
        match self {
            Kind::Signed(_) => true,
            Kind::Unsigned(_) | Kind::Text(_) => false,
        }
    }

    /// Whether the number of one word of the kind is below that of another.
    #[tactic(auto, using(crate::proofs::Signs::below_plain, crate::proofs::Signs::below_signed))]
    pub fn is_below(self, first: u128, second: u128) -> bool
        ensures { result ≡ spec.is_below self first second }
    {
        if self.is_signed() {
            signed_below(self.bits(), first, second)
        } else {
            first < second
        }
    }

    /// Whether the number of one word of the kind is at most that of another.
    #[tactic(auto, using(crate::proofs::Signs::at_most_is))]
    pub fn is_at_most(self, first: u128, second: u128) -> bool
        ensures { result ≡ spec.is_at_most self first second }
    {
        !self.is_below(second, first)
    }

    /// Whether a word of the kind stands for this number.
    #[tactic(auto, using(crate::proofs::KindLemmas::in_range_is, crate::proofs::Signs::in_range_signed))]
    pub fn has_number(self, number: u128) -> bool
        ensures { result ≡ spec.in_range self (pos number) }
    {
        if self.is_signed() {
            self.bits() > 0 && fits(number, self.bits() - 1)
        } else {
            fits(number, self.bits())
        }
    }

    /// Whether a word of the kind stands for this number behind a minus sign: a kind with a sign has
    /// such numbers, 0 too, down to its lowest, and no other kind has any.
    #[tactic(auto, using(crate::proofs::Signs::has_negative_is))]
    pub fn has_negative(self, number: u128) -> bool
        ensures { result ≡ spec.has_negative self number }
    {
        self.is_signed() && fits(number.saturating_sub(1), self.bits().saturating_sub(1))
    }

    /// The word that stands for this number behind a minus sign.
    #[tactic(auto, using(crate::proofs::Signs::negated_word, crate::proofs::KindLemmas::kind_some))]
    pub fn negative_word(self, number: u128) -> u128
        requires { IsKind self }
        ensures { result ≡ spec.negative_word self number }
    {
        wrapped(0u128.wrapping_sub(number), self.width())
    }

    /// The word of a width of 1 to 128 bits that stands for the number of a word of the kind.
    #[tactic(auto, using(crate::proofs::Signs::resized_signed, crate::proofs::Signs::resized_plain, crate::proofs::KindLemmas::kind_some))]
    pub fn resized(self, word: u128, width: u8) -> u128
        requires kind { IsKind self }
        requires some { 1 ≤ width }
        requires most { width ≤ 128 }
        ensures { result ≡ spec.word_of width (spec.number_of self word) }
    {
        if self.is_signed() {
            signed_resized(word, self.width(), width)
        } else {
            wrapped(word, width)
        }
    }

    /// The word of the kind that stands for the bits of a word from a place on: above them stand bits
    /// like the sign, or zero bits where the kind has none.
    #[tactic(auto, using(crate::proofs::Signs::down_signed, crate::proofs::Signs::down_plain, crate::proofs::KindLemmas::kind_some, crate::proofs::KindLemmas::kind_width))]
    pub fn shifted_down(self, word: u128, by: u8) -> u128
        requires kind { IsKind self }
        requires near { by < spec.width_of self }
        ensures { result ≡ spec.shifted_down self word by }
    {
        let high = word >> by;
        if self.is_signed() {
            signed_resized(high, self.width() - by, self.width())
        } else {
            wrapped(high, self.width())
        }
    }

    /// The bits of a value of a kind that there is.
    pub fn width(self) -> u8
        requires { IsKind self }
        ensures { result ≡ spec.width_of self }
    {
        self.bits() as u8
    }

    /// Whether there is such a kind.
    pub fn is_kind(self) -> bool
        ensures { result ≡ spec.is_kind self }
    {
        self.fewest() <= self.bits() && self.bits() <= 64
    }

    /// The bytes of a text.
    pub fn bytes(self) -> u8
        ensures { result ≡ spec.bytes_in self }
    {
        (self.bits() / 8) as u8
    }

    /// Whether its values are numbers.
    pub fn is_number(self) -> bool
        ensures { result ≡ spec.is_number self }
    {
        are_alike(self.family(), Family::Numbers)
    }

    /// Whether its values are texts.
    pub fn is_text(self) -> bool
        ensures { result ≡ spec.is_text self }
    {
        are_alike(self.family(), Family::Texts)
    }

    /// Whether a CAST goes to another kind.
    pub fn can_cast(self, to: Kind) -> bool
        ensures { result ≡ spec.can_cast self to }
    {
        are_alike(self.family(), to.family()) && to.is_kind()
    }
}

// Whether two families are one.
fn are_alike(first: Family, second: Family) -> bool
    ensures { result ≡ spec.are_alike first second }
{
    match (first, second) {
        (Family::Numbers, Family::Numbers) | (Family::Texts, Family::Texts) => true,
        (Family::Numbers, Family::Texts) | (Family::Texts, Family::Numbers) => false,
    }
}

// Whether the number of one word of `bits` bits, in two's complement, is below that of another.
#[tactic(auto, using(crate::proofs::Signs::below_same, crate::proofs::Signs::below_mixed, crate::proofs::Signs::mixed_below))]
fn signed_below(bits: u16, first: u128, second: u128) -> bool
    ensures { result ≡ int_lt (spec.signed_number bits first) (spec.signed_number bits second) }
{
    let half = bits.saturating_sub(1);
    let low = fits(first, half);
    if low == fits(second, half) {
        return first < second;
    }
    if low {
        return below_past(bits, first, second);
    }
    past_below(bits, first, second)
}

// Whether a number is below another one less 2^bits.
#[tactic(auto, using(crate::proofs::Signs::below_none, crate::proofs::Signs::below_rest))]
fn below_past(bits: u16, number: u128, past: u128) -> bool
    ensures { result ≡ int_lt (pos number) (pos past -ℤ pos (2 ^ bits)) }
{
    if fits(past, bits) {
        return false;
    }
    number < past - (1u128 << bits)
}

// Whether a number less 2^bits is below another one.
#[tactic(auto, using(crate::proofs::Signs::none_below, crate::proofs::Signs::rest_below))]
fn past_below(bits: u16, past: u128, number: u128) -> bool
    ensures { result ≡ int_lt (pos past -ℤ pos (2 ^ bits)) (pos number) }
{
    if fits(past, bits) {
        return true;
    }
    past - (1u128 << bits) < number
}

// The word of a width that stands for the number of a word of `bits` bits, in two's complement.
#[tactic(auto, using(crate::proofs::Signs::resized_low, crate::proofs::Signs::resized_high))]
fn signed_resized(word: u128, bits: u8, width: u8) -> u128
    requires few { bits ≤ 64 }
    requires some_bits { 1 ≤ bits }
    requires some { 1 ≤ width }
    requires most { width ≤ 128 }
    ensures { result ≡ spec.word_of width (spec.signed_number bits word) }
{
    if fits(word, u16::from(bits - 1)) {
        return wrapped(word, width);
    }
    wrapped(word.wrapping_sub(1u128 << bits), width)
}

// Whether a number fits `bits` bits.
#[tactic(auto, using(crate::proofs::KindLemmas::wide_enough))]
pub(crate) fn fits(number: u128, bits: u16) -> bool
    ensures { result ≡ nat_lt number (2 ^ bits) }
{
    if bits >= 128 {
        return true;
    }
    number < 1u128 << bits
}
