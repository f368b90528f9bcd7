// Kinds of summary: what a range of elements comes to, and the laws by which its parts may be joined.
#![tactic(auto)]

ghost use Rattle.std.specs.Prelude.{◌≡◌, ℕ, ℤ, List, ◌++◌};
ghost use Rattle.kinds.specs.Facts.{Fact, always, both_facts, sound_readings};
ghost use Rattle.kinds.specs.Rules.{Rule, Laws, summary};
ghost use Rattle.kinds.specs.Sums.{◌⊕◌, SumLaws};
ghost use Rattle.kinds.specs.Models.{thinnest, fits16, thinnest_laws, summed, fits32, summed_laws, both, valid_both, both_laws};
ghost use Rattle.kinds.specs.Texts.{pair_text};

use std::fmt;
use std::marker::PhantomData;

// A kind of summary. `rule` is what it means, `valid` tells the summaries that can exist, and `laws` is what every
// kind owes: the unit alters nothing, and a join of three may be grouped either way. `sound` is what a type that stands on a
// sequence of this kind keeps its elements to, from a start in numbers on, as a plan and a survey do. It stands here so that
// such a type asks for a sequence and no more. A sequence itself takes any element, and most kinds leave this out.
pub trait Kind {
    type Element: Copy;

    type Summary: Copy;

    ghost rule: { Rule Self.Element Self.Summary };

    ghost valid: { Self.Summary → Type 0 };

    ghost laws: { Laws valid rule };

    ghost sound: { List ℤ → List Self.Element → Fact } = { λ start elements. always };

    fn of(element: &Self::Element) -> Self::Summary
        ensures { result ≡ rule.one element.now };

    fn unit() -> Self::Summary
        ensures { result ≡ rule.unit };

    fn join(a: Self::Summary, b: Self::Summary) -> Self::Summary
        ensures { result ≡ rule.join a b };
}

// The elements of a slice, joined from left to right; wherever the slice is cut, that is the join of its two parts.
pub fn fold<K: Kind>(elements: &[K::Element]) -> K::Summary
    ensures value { result ≡ summary K.Kind.rule elements.now }
    ensures parts { (xs ys : List K.Element) → elements.now ≡ xs ++ ys → result ≡ K.Kind.rule.join (summary K.Kind.rule xs) (summary K.Kind.rule ys) }
{
    let mut sum = K::unit();
    for element in elements {
        sum = K::join(sum, K::of(element));
    }
    sum
}

// The sum of two numbers, or the greatest 32-bit number where they pass it.
pub fn saturating_sum(u: u32, v: u32) -> u32
    ensures value { result ≡ (u ⊕ v) }
    ensures laws { SumLaws }
{
    u.saturating_add(v)
}

// The least of readings. No reading comes to 65,535, so by the rules of the kind that number stands for none.
pub struct Thinnest;

impl Kind for Thinnest {
    type Element = u16;

    type Summary = u16;

    ghost rule = { thinnest };

    ghost valid = { fits16 };

    ghost laws = { thinnest_laws };

    ghost sound = { λ start readings. sound_readings readings };

    fn of(element: &u16) -> u16 {
        *element
    }

    fn unit() -> u16 {
        u16::MAX
    }

    fn join(a: u16, b: u16) -> u16 {
        a.min(b)
    }
}

// A number that each element has.
pub trait Measure {
    type Element: Copy;

    ghost measure: { Self.Element → ℕ };

    fn measure(element: &Self::Element) -> u32
        ensures { result ≡ measure element.now };
}

// The sum of a measure, as far as 32 bits go.
pub struct Sum<M> {
    measure: PhantomData<M>,
}

impl<M: Measure> Kind for Sum<M> {
    type Element = M::Element;

    type Summary = u32;

    ghost rule = { summed M.Measure.measure };

    ghost valid = { fits32 };

    ghost laws = { summed_laws M.Measure.measure };

    fn of(element: &M::Element) -> u32 {
        M::measure(element)
    }

    fn unit() -> u32 {
        0
    }

    fn join(a: u32, b: u32) -> u32 {
        saturating_sum(a, b)
    }
}

// A reading as it stands.
pub struct Reading;

impl Measure for Reading {
    type Element = u16;

    ghost measure = { λ reading. reading };

    fn measure(element: &u16) -> u32 {
        u32::from(*element)
    }
}

// The sum of readings.
pub type Total = Sum<Reading>;

// The summaries of two kinds.
#[derive(Clone, Copy, PartialEq, Eq, Debug)]
pub struct Pair<A, B> {
    pub first: A,
    pub second: B,
}

impl<A: fmt::Display, B: fmt::Display> fmt::Display for Pair<A, B> {
    ghost output = { pair_text A.output B.output };

    fn fmt<W: fmt::Write>(&self, f: &mut fmt::Formatter<W>) -> fmt::Result {
        let first = &self.first;
        let second = &self.second;
        write!(f, "({first}, {second})")
    }
}

// Two kinds over one element type, side by side.
pub struct Both<A, B> {
    first: PhantomData<A>,
    second: PhantomData<B>,
}

impl<A: Kind, B: Kind<Element = A::Element>> Kind for Both<A, B> {
    type Element = A::Element;

    type Summary = Pair<A::Summary, B::Summary>;

    ghost rule = { both A.Kind.rule B.Kind.rule };

    ghost valid = { valid_both A.Kind.valid B.Kind.valid };

    ghost laws = { both_laws A.Kind.laws B.Kind.laws };

    ghost sound = { λ start elements. both_facts (A.Kind.sound start elements) (B.Kind.sound start elements) };

    fn of(element: &A::Element) -> Pair<A::Summary, B::Summary> {
        Pair {
            first: A::of(element),
            second: B::of(element),
        }
    }

    fn unit() -> Pair<A::Summary, B::Summary> {
        Pair {
            first: A::unit(),
            second: B::unit(),
        }
    }

    fn join(
        a: Pair<A::Summary, B::Summary>,
        b: Pair<A::Summary, B::Summary>,
    ) -> Pair<A::Summary, B::Summary> {
        Pair {
            first: A::join(a.first, b.first),
            second: B::join(a.second, b.second),
        }
    }
}
