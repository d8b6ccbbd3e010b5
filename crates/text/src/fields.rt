//! The fields of a line.
ghost use Rattle.std.specs.Prelude.{◌≡◌, ◌≢◌, ◌<◌, [], ◌∷◌, length, IfSome, MatchOption};
ghost use Rattle.std.specs.Iterator.{Drains, YieldsFirstRef, item_count};
ghost use Rattle.text.specs.Fields.{fields, fields_left, left_of, GivesOther};

use crate::part::find;

/// The byte between two fields.
const COMMA: u8 = b',';

/// The first field, and what stands behind its comma, if it has one.
pub fn first_field<'a>(line: &'a [u8]) -> (&'a [u8], Option<&'a [u8]>)
    ensures parts { fields line.now ≡ result.0.now ∷ fields_left result.1 }
    ensures shorter { IfSome result.1 (λ left. length left.now < length line.now) }
{
    match find(line, COMMA) {
        Some(n) => (&line[..n], Some(&line[n + 1..])),
        None => (line, None),
    }
}

/// The fields of what is left of a line, one after the other.
// By `first_field`, which says what a field is; the library's `split` of a slice says it by a closure.
#[derive(Clone, Copy, Debug, PartialEq, Eq)]
pub struct Fields<'a> {
    pub left: Option<&'a [u8]>,
}

impl<'a> Iterator for Fields<'a> {
    type Item = &'a [u8];

    ghost next_gives = { YieldsFirstRef left_of };

    ghost remaining = { item_count left_of };

    fn next(&mut self) -> Option<&'a [u8]> {
        let (field, left) = first_field(self.left?);
        self.left = left;
        Some(field)
    }
}

/// The items, if there are just `N`.
pub fn exactly<I: Iterator + Drop, const N: usize>(mut items: I) -> Option<[I::Item; N]>
where
    I::Item: Copy + Default,
    requires { I.can_next items }
    ensures { MatchOption result (GivesOther I.next_gives items N) (λ found. Drains I.next_gives items found) }
{
    let mut found = [I::Item::default(); N];
    for place in &mut found {
        *place = items.next()?;
    }
    match items.next() {
        Some(_) => None,
        None => Some(found),
    }
}

/// The fields of what is left of a line, if there are just two.
pub fn two<'a>(left: Option<&'a [u8]>) -> Option<(&'a [u8], &'a [u8])>
    ensures { MatchOption result (length (fields_left left.entry) ≢ 2) (λ p. fields_left left.entry ≡ p.0.now ∷ p.1.now ∷ []) }
{
    let [a, b] = exactly::<_, 2>(Fields { left })?;
    Some((a, b))
}

/// The fields of what is left of a line, if there are just three.
pub fn three<'a>(left: Option<&'a [u8]>) -> Option<(&'a [u8], &'a [u8], &'a [u8])>
    ensures { MatchOption result (length (fields_left left.entry) ≢ 3) (λ p. fields_left left.entry ≡ p.0.now ∷ p.1.now ∷ p.2.now ∷ []) }
{
    let [a, b, c] = exactly::<_, 3>(Fields { left })?;
    Some((a, b, c))
}

/// The fields of what is left of a line, if there are just four.
pub fn four<'a>(left: Option<&'a [u8]>) -> Option<(&'a [u8], &'a [u8], &'a [u8], &'a [u8])>
    ensures { MatchOption result (length (fields_left left.entry) ≢ 4) (λ p. fields_left left.entry ≡ p.0.now ∷ p.1.now ∷ p.2.now ∷ p.3.now ∷ []) }
{
    let [a, b, c, d] = exactly::<_, 4>(Fields { left })?;
    Some((a, b, c, d))
}
