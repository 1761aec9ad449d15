//! Instances of classes.

ghost use Rattle.std.specs.Prelude.{◌≡◌, ◌+◌, ◌&&◌, ◌||◌, [], map, not, cond, Some, None, IfOk};
ghost use Rattle.std.specs.Prelude.{OnOk};
ghost use Rattle.verse_tree.specs.View.{given_of, givens};
ghost use Rattle.verse_rules_types.specs.Types.{ty_of};
ghost use Rattle.verse_check_typing.specs.Facts.{named_ref};
ghost use Rattle.verse_check_typing.specs.Members as m;
ghost use Rattle.verse_check_calls.specs.Given.{all_have};
ghost use Rattle.verse_check_typing.specs.Rows as rows;
ghost use Rattle.verse_check_typing.specs.TypeRules as r;
ghost use Rattle.verse_check_typing.specs.Views.{facts_of, judged_of, numbers_of};
ghost use Rattle.verse_base.specs.declared.rules.TheConstants.{LACKING, MEMBERLESS};
ghost use Rattle.verse_base.specs.declared.rules.TheConstants.{TYPES_DIFFER, UNCALLABLE};

use crate::members::field_by;
use crate::names::class_type;
use shared_list::{Halves, SharedList};
use verse_base::refusals::Memory;
use verse_base::rules::{LACKING, MEMBERLESS, TYPES_DIFFER, UNCALLABLE};
use verse_check_typing::facts::Facts;
use verse_check_typing::judged::Judged;
use verse_check_typing::sets::NumberSet;
use verse_rules_types::fitting::does_fit;
use verse_tree::exprs::Given;
use verse_tree::fields::FieldList;
use verse_tree::tables::{Ref, Ty};

fn does_fit_field(facts: &Facts<'_, '_>, class: u32, ty: &Ty, place: Option<u32>) -> bool
    ensures { result ≡ m.fits_field (facts_of facts.now) class (ty_of ty.now) place }
{
    match place {
        None => true,
        Some(place) => does_fit_at(facts, class, ty, place),
    }
}

fn does_fit_at(facts: &Facts<'_, '_>, class: u32, ty: &Ty, place: u32) -> bool
    ensures { result ≡ m.fits_field (facts_of facts.now) class (ty_of ty.now) (Some place) }
{
    match facts.field_at(class, place) {
        None => does_fit(facts.classes(), ty, &Ty::Never),
        Some(info) => does_fit(facts.classes(), ty, &info.ty),
    }
}

/// Whether each value fits its field, where there is a field of its name.
fn do_givens_fit(facts: &Facts<'_, '_>, class: u32, parts: &[Given]) -> bool
    ensures { result ≡ m.givens_fit (facts_of facts.now) class (givens (map given_of parts.now)) }
{
    'parts: for part in parts {
        let ty = facts.type_of(part.value.get());
        let place = field_by(facts, class, part.name.as_slice());
        if !does_fit_field(facts, class, ty, place) {
            return false;
        }
    }
    true
}

/// Whether each name is that of a field.
fn are_fields(facts: &Facts<'_, '_>, class: u32, parts: &[Given]) -> bool
    ensures { result ≡ m.are_fields (facts_of facts.now) class (givens (map given_of parts.now)) }
{
    'parts: for part in parts {
        if field_by(facts, class, part.name.as_slice()).is_none() {
            return false;
        }
    }
    true
}

fn add_place(places: &mut NumberSet, place: Option<u32>) -> Result<(), Memory>
    ensures { OnOk result (numbers_of places.new ≡ m.with_place place (numbers_of places.old)) }
{
    match place {
        None => Ok(()),
        Some(place) => places.add(place),
    }
}

/// The places of the fields that are given.
fn places(facts: &Facts<'_, '_>, class: u32, parts: &[Given]) -> Result<NumberSet, Memory>
    ensures { IfOk result (λ s. numbers_of s ≡ m.places_from (facts_of facts.now) class []
        (givens (map given_of parts.now))) }
{
    let mut found = NumberSet::new(facts.world.alloc);
    'parts: for part in parts {
        let place = field_by(facts, class, part.name.as_slice());
        add_place(&mut found, place)?;
    }
    Ok(found)
}

/// Whether all these places are given.
#[tactic(auto, using(crate::proofs::Given::one_given, crate::proofs::Given::both_given))]
fn are_all_given(given: &NumberSet, lacking: &SharedList<u32>) -> bool
    ensures { result ≡ all_have (numbers_of given.now) lacking.now }
{
    match lacking.halves() {
        Halves::Nothing => true,
        Halves::One(place) => given.has(*place),
        Halves::Two(left, right) => are_all_given(given, left) && are_all_given(given, right),
    }
}

/// Whether all fields of a class that have no default are given.
#[tactic(auto, using(crate::proofs::Given::all_lacking))]
fn gives_all(given: &NumberSet, fields: &FieldList) -> bool
    ensures { result ≡ m.all_given (numbers_of given.now) 0 fields.now }
{
    are_all_given(given, fields.lacking())
}

fn has_all(facts: &Facts<'_, '_>, class: u32, parts: &[Given]) -> Result<bool, Memory>
    ensures { IfOk result (λ b. b ≡
        m.has_all (facts_of facts.now) class (givens (map given_of parts.now))) }
{
    let given = places(facts, class, parts)?;
    match facts.classes().get(class as usize) {
        None => Ok(true),
        Some(info) => Ok(gives_all(&given, &info.fields)),
    }
}

fn class_code(facts: &Facts<'_, '_>, class: u32, parts: &[Given]) -> Result<Option<u16>, Memory>
    ensures { IfOk result (λ c. c ≡
        cond (not (m.givens_fit (facts_of facts.now) class (givens (map given_of parts.now))))
        (Some TYPES_DIFFER) (cond (not (m.has_all (facts_of facts.now) class
        (givens (map given_of parts.now)))) (Some LACKING)
        (cond (not (m.are_fields (facts_of facts.now) class (givens (map given_of parts.now))))
        (Some MEMBERLESS) None))) }
{
    if !do_givens_fit(facts, class, parts) {
        return Ok(Some(TYPES_DIFFER));
    }
    if !has_all(facts, class, parts)? {
        return Ok(Some(LACKING));
    }
    if !are_fields(facts, class, parts) {
        return Ok(Some(MEMBERLESS));
    }
    Ok(None)
}

fn instance_code(
    facts: &Facts<'_, '_>,
    what: Option<Ref>,
    parts: &[Given],
) -> Result<Option<u16>, Memory>
    ensures { IfOk result (λ c. c ≡
        cond (not (r.on_class what (λ d.
        m.givens_fit (facts_of facts.now) d (givens (map given_of parts.now))))) (Some TYPES_DIFFER)
        (cond (not (r.is_class what)) (Some UNCALLABLE)
        (cond (not (r.on_class what
        (λ d. m.has_all (facts_of facts.now) d (givens (map given_of parts.now))))) (Some LACKING)
        (cond (not (r.on_class what
        (λ d. m.are_fields (facts_of facts.now) d (givens (map given_of parts.now)))))
        (Some MEMBERLESS) None)))) }
{
    match what {
        Some(Ref::Class(class)) => class_code(facts, class, parts),
        _ => Ok(Some(UNCALLABLE)),
    }
}

/// `c{F := E}`.
pub fn instance(facts: &Facts<'_, '_>, node: u32, parts: &[Given]) -> Result<Judged, Memory>
    ensures { IfOk result (λ j. judged_of j ≡
        record {
          ty = rows.class_type (named_ref (facts_of facts.now) node);
          code =
              cond (not (r.on_class (named_ref (facts_of facts.now) node)
              (λ d. m.givens_fit (facts_of facts.now) d (givens (map given_of parts.now)))))
              (Some TYPES_DIFFER)
              (cond (not (r.is_class (named_ref (facts_of facts.now) node))) (Some UNCALLABLE)
              (cond (not (r.on_class (named_ref (facts_of facts.now) node)
              (λ d. m.has_all (facts_of facts.now) d (givens (map given_of parts.now)))))
              (Some LACKING)
              (cond (not (r.on_class (named_ref (facts_of facts.now) node)
              (λ d. m.are_fields (facts_of facts.now) d (givens (map given_of parts.now)))))
              (Some MEMBERLESS) None)));
        }) }
{
    let what = facts.named_ref(node);
    let code = instance_code(facts, what, parts)?;
    Ok(Judged {
        ty: class_type(what),
        code,
    })
}
