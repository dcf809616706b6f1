ghost use Rattle.std.specs.Prelude.{◌≡◌, [], ◌∷◌, MatchOption, Some, None, nat_lt, if◌then◌else◌};
ghost use Rattle.xp_facilities.specs.Items.{IsField, octets_of};
ghost use Rattle.xp_facilities.specs.steps.Items.{cut, first_item};

use crate::codes::FIRST_COUNTED;
use std::marker::Model;

/// A facility: its code and its parameters.
#[derive(Drop)]
pub(crate) struct Item<'a> {
    code: u8,
    parameters: &'a [u8],
    octets: &'a [u8],
}

impl<'a> Model for Item<'a> {
    ghost use Rattle.std.specs.Prelude.{◌≡◌};
    ghost use Rattle.xp_facilities.specs.Items.{Item, octets_of};

    ghost Value = { Item };

    ghost view = { λ i. record { code = i.code; parameters = i.parameters.now } };

    ghost invariant = { λ i. i.octets.now ≡ octets_of (record { code = i.code; parameters = i.parameters.now }) };
}

impl<'a> Item<'a> {
    /// The first item of the octets, and the octets after it. `None` if the octets do not begin with an item.
    fn first(octets: &'a [u8]) -> Option<(Item<'a>, &'a [u8])>
        ensures { MatchOption result (first_item octets.now ≡ None)
            (λ front. first_item octets.now ≡ Some (front.0, front.1.now)) }
    {
        match octets {
            [code, behind @ ..] if *code < FIRST_COUNTED => {
                Item::cut(octets, *code, behind, usize::from(*code) / 64 + 1)
            }
            [code, count, behind @ ..] => Item::cut(octets, *code, behind, usize::from(*count)),
            _ => None,
        }
    }

    /// The item at the front of `octets`, whose `count` octets of parameters are at the front of `behind`, and the
    /// octets after it.
    fn cut(
        octets: &'a [u8],
        code: u8,
        behind: &'a [u8],
        count: usize,
    ) -> Option<(Item<'a>, &'a [u8])>
        requires { octets.now ≡ code ∷ (if nat_lt code 192 then behind.now else count ∷ behind.now) }
        ensures { MatchOption result (cut code count behind.now ≡ None)
            (λ front. cut code count behind.now ≡ Some (front.0, front.1.now)) }
    {
        if behind.len() < count {
            return None;
        }
        let (parameters, rest) = behind.split_at(count);
        let item = Item {
            code,
            parameters,
            octets: &octets[..octets.len() - rest.len()],
        };
        Some((item, rest))
    }

    pub(crate) fn code(&self) -> u8
        ensures { result ≡ self.now.code }
    {
        self.code
    }

    pub(crate) fn parameters(&self) -> &'a [u8]
        ensures { result.now ≡ self.now.parameters }
    {
        self.parameters
    }

    /// All octets of the item.
    pub(crate) fn octets(&self) -> &'a [u8]
        ensures { result.now ≡ octets_of self.now }
    {
        self.octets
    }
}

/// The items of a facility field, read from the front.
#[derive(Drop)]
pub(crate) struct Items<'a> {
    octets: &'a [u8],
}

impl<'a> Model for Items<'a> {
    ghost use Rattle.std.specs.Prelude.{List};
    ghost use Rattle.xp_facilities.specs.Items.{Item, IsField};
    ghost use Rattle.xp_facilities.specs.steps.Items.{items_of};

    ghost Value = { List Item };

    ghost view = { λ s. items_of s.octets.now };

    ghost invariant = { λ s. IsField s.octets.now (items_of s.octets.now) };
}

impl<'a> Items<'a> {
    /// The items of the field, or `None` if it is not a list of items.
    pub(crate) fn of(field: &'a [u8]) -> Option<Items<'a>>
        ensures { MatchOption result ((items : _) → IsField field.now items → ⊥) (λ items. IsField field.now items) }
    {
        let mut rest = field;
        while !rest.is_empty() {
            let (_item, behind) = Item::first(rest)?;
            rest = behind;
        }
        Some(Items { octets: field })
    }

    /// A copy, which reads the same items again.
    pub(crate) fn again(&self) -> Items<'a>
        ensures { result ≡ self.now }
    {
        Items {
            octets: self.octets,
        }
    }

    /// Removes and returns the next item.
    pub(crate) fn next(&mut self) -> Option<Item<'a>>
        ensures { MatchOption result ((self.old ≡ []) × (self.new ≡ [])) (λ item. self.old ≡ item ∷ self.new) }
    {
        let (item, behind) = Item::first(self.octets)?;
        self.octets = behind;
        Some(item)
    }
}
