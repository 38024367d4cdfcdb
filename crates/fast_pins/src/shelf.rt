//! The two copies from which readers take the shown snapshot.

ghost use Rattle.std.specs.Prelude.{◌≡◌, Some, OnOk, OnErr, IfSome, IfOk};
ghost use Rattle.left_right.specs.Sides.{view};
ghost use Rattle.fast_pins.specs.Known.{published};

use crate::edition::Edition;
use crate::issue::Origin;
use crate::shot::Shot;
use atomic_table::{Join, Split};
use crossbeam_utils::rule::{Outcome, Protocol};
use dn_model::OutOfMemory;
use left_right::reader::Reader;
use left_right::writer::Writer;
use std::alloc::Global;
use std::sync::Wait;

/// What is shown is of one publisher for good.
pub struct OneOrigin;

impl<S: Shot> Protocol<Edition<S>, Option<Origin>> for OneOrigin {
    ghost use Rattle.std.specs.Prelude.{None};
    ghost use Rattle.fast_pins.specs.Shelf.{AllOf};

    ghost holds = { λ shown views. AllOf shown views };

    ghost first = { None };
}

/// The caller learns of which publisher it is.
struct Claims;

impl<S: Shot> Outcome<Edition<S>, Option<Origin>> for Claims {
    ghost use Rattle.std.specs.Prelude.{◌≡◌, Some};

    ghost then = { λ before old new after. after ≡ Some new.origin };
}

/// The caller sees an edition of the publisher that it knows.
struct Sees;

impl<S: Shot> Outcome<Edition<S>, Option<Origin>> for Sees {
    ghost use Rattle.std.specs.Prelude.{◌≡◌, Some};
    ghost use Rattle.fast_pins.specs.declared.issue.Origin.{Origin};

    ghost then = { λ before old new after. ((o : Origin) → before ≡ Some o → o ≡ old.origin) × (after ≡ before) };
}

/// Both know it.
struct Twice;

impl Split<Option<Origin>> for Twice {
    ghost left = { λ known. known };

    ghost right = { λ known. known };
}

/// The first takes what the second knows.
struct Told;

impl Join<Option<Origin>> for Told {
    ghost use Rattle.std.specs.Prelude.{None};

    ghost both = { λ _ known. known };

    ghost spent = { None };
}

pub(crate) type Shelf<S> = Writer<Edition<S>, Edition<S>, Option<Origin>, OneOrigin, Global>;

pub(crate) type Place<S> = Reader<Edition<S>, Option<Origin>, OneOrigin, Global>;

/// Shows an edition to readers. It waits for those that still read the copy from before the last one. After
/// `OutOfMemory` they see what they saw.
pub(crate) fn show<S: Shot, R: Wait>(
    rt: &R,
    shelf: Shelf<S>,
    edition: Edition<S>,
) -> (Shelf<S>, Result<(), OutOfMemory>)
    requires origin { shelf.desk.shown.value.origin ≡ edition.origin }
    ensures shown { OnOk result.1 (result.0.desk.shown.value ≡ edition) }
    ensures view { OnOk result.1 (view result.0.desk.place ≡ Some edition.origin) }
    ensures kept { OnErr result.1 (result.0.desk.shown.value ≡ shelf.desk.shown.value) }
    ensures kept_view { OnErr result.1 (view result.0.desk.place ≡ view shelf.desk.place) }
{
    let mut shelf = shelf;
    if shelf.append(edition).is_err() {
        return (shelf, Err(OutOfMemory));
    }
    let (shelf, shown) = shelf.publish_as::<Claims, R>(rt);
    match shown {
        Ok(()) => (shelf, Ok(())),
        Err(_) => (shelf, Err(OutOfMemory)),
    }
}

/// Puts the copies back where they were taken from.
pub(crate) fn put_back<S: Shot, R: Wait>(rt: &R, home: &mut Option<Shelf<S>>, shelf: Shelf<S>)
    ensures { home.new ≡ Some shelf }
{
    if let Some(old) = home.replace(shelf) {
        drop(old.take(rt));
    }
}

/// A place from which a reader takes what is shown, or none where each is in use.
pub(crate) fn seat<S: Shot>(shelf: &mut Shelf<S>) -> Option<Place<S>>
    ensures shown { shelf.new.desk.shown ≡ shelf.old.desk.shown }
    ensures view { view shelf.new.desk.place ≡ view shelf.old.desk.place }
    ensures place { IfSome result (λ p. view p.place ≡ view shelf.old.desk.place) }
{
    let mut place = shelf.factory().reader().ok()?;
    place.learn::<Told>(shelf.tell::<Twice>());
    Some(place)
}

/// The edition that is shown, where there is a place to take it from and the publisher has not ended.
pub(crate) fn newest<S: Shot>(
    place: &mut Option<Place<S>>,
    own: &Edition<S>,
) -> Result<Option<Edition<S>>, OutOfMemory>
    requires place { IfSome place.old (λ p. view p.place ≡ Some own.now.origin) }
    ensures place { IfSome place.new (λ p. view p.place ≡ Some own.now.origin) }
    ensures found { IfOk result (λ found. IfSome found (λ e. e.origin ≡ own.now.origin)) }
{
    let Some(reader) = place.take() else {
        return Ok(None);
    };
    match reader.enter_as::<Sees>() {
        Ok(reading) => {
            let found = reading.get().again();
            *place = Some(reading.leave());
            Ok(Some(found?))
        }
        Err(reader) => {
            *place = Some(reader);
            Ok(None)
        }
    }
}
