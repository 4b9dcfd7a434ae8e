//! The route of a path.
ghost use Rattle.std.specs.Prelude.{◌≡◌, ◌+◌, ◌<◌, ◌≤◌, length, map, take, drop};
ghost use Rattle.std.specs.List.{list_all, slice_split};
ghost use Rattle.agent_events.specs.Forms.{field};
ghost use Rattle.agent_http.specs.Calls as spec;

use crate::body::is_posted;
use request_fields::{is_order, place_of, same_bytes};

/// What stands at a path.
#[derive(Clone, Copy, Debug)]
pub(crate) enum Route {
    Missing,
    /// A batch of a dealer's lines by POST.
    Batch,
    /// A verb by POST.
    Posted,
    /// A look by GET.
    Look,
}

/// So many parts of a path are told apart; no route has as many.
pub(crate) const PART_LIMIT: usize = 7;

/// Writes the first parts of a target's path between slashes to a room, and gives how many
/// they are.
pub(crate) fn parts_in<'a>(target: &'a [u8], room: &mut [&'a [u8]; PART_LIMIT]) -> usize
    ensures count { result ≤ length room.new }
    ensures parts { map (λ part. part.now) (take result room.new)
        ≡ take 7 (spec.parts_of (spec.path_of target.now)) }
{
    slash_parts(path_of(target), room)
}

fn slash_parts<'a>(path: &'a [u8], room: &mut [&'a [u8]; PART_LIMIT]) -> usize
    ensures count { result ≤ length room.new }
    ensures parts { map (λ part. part.now) (take result room.new)
        ≡ take 7 (slice_split spec.is_slash path.now) }
{
    let mut rest = path;
    for place in 0..PART_LIMIT {
        let end = place_of(b'/', rest);
        room[place] = front(rest, end);
        if end == rest.len() {
            return place + 1;
        }
        rest = past(rest, end);
    }
    PART_LIMIT
}

// The bytes before a place.
fn front(text: &[u8], place: usize) -> &[u8]
    requires { place ≤ length text.now }
    ensures { result.now ≡ take place text.now }
{
    &text[..place]
}

// The bytes behind the byte at a place.
fn past(text: &[u8], place: usize) -> &[u8]
    requires { place < length text.now }
    ensures { result.now ≡ drop (place + 1) text.now }
{
    &text[place + 1..]
}

// The target up to a question mark.
fn path_of(target: &[u8]) -> &[u8]
    ensures { result.now ≡ spec.path_of target.now }
{
    &target[..place_of(b'?', target)]
}

/// The part at this place, from 1; past the last it is empty.
pub(crate) fn part<'a>(parts: &[&'a [u8]], place: usize) -> &'a [u8]
    requires { 1 ≤ place }
    ensures { result.now ≡ field (map (λ part. part.now) parts.now) place }
{
    match parts.get(place - 1) {
        Some(part) => part,
        None => &[],
    }
}

/// The route by all parts of a path.
pub(crate) fn route_of(parts: &[&[u8]]) -> Route
    ensures { result ≡ spec.route_of (map (λ part. part.now) parts.now) }
{
    if is_rooted(parts) && are_filled(behind(parts, 2)) {
        route_in(behind(parts, 2))
    } else {
        Route::Missing
    }
}

/// The parts behind so many.
pub(crate) fn behind<'a, 'b>(parts: &'b [&'a [u8]], count: usize) -> &'b [&'a [u8]]
    ensures { map (λ part. part.now) result.now ≡ drop count (map (λ part. part.now) parts.now) }
{
    if parts.len() < count {
        &[]
    } else {
        &parts[count..]
    }
}

fn is_rooted(parts: &[&[u8]]) -> bool
    ensures { result ≡ spec.is_rooted (map (λ part. part.now) parts.now) }
{
    same_bytes(part(parts, 1), b"") && same_bytes(part(parts, 2), b"v1")
}

fn are_filled(parts: &[&[u8]]) -> bool
    ensures { result ≡ list_all spec.is_filled (map (λ part. part.now) parts.now) }
{
    all_filled(parts)
}

fn all_filled(parts: &[&[u8]]) -> bool
    ensures { result ≡ list_all (λ part. spec.is_filled part.now) parts.now }
{
    parts.iter().all(|part| is_filled(part))
}

fn is_filled(part: &[u8]) -> bool
    ensures { result ≡ spec.is_filled part.now }
{
    !part.is_empty()
}

fn route_in(parts: &[&[u8]]) -> Route
    ensures { result ≡ spec.route_in (map (λ part. part.now) parts.now) }
{
    let verb = part(parts, 1);
    if parts.len() == 1 {
        verb_route(verb)
    } else if parts.len() == 2 {
        look_route(verb, b"show")
    } else if parts.len() == 3 {
        look_route(verb, b"trace")
    } else if parts.len() == 4 {
        look_route(verb, b"statement")
    } else {
        Route::Missing
    }
}

fn look_route(verb: &[u8], known: &[u8]) -> Route
    ensures { result ≡ spec.look_route verb.now known.now }
{
    if same_bytes(verb, known) {
        Route::Look
    } else {
        Route::Missing
    }
}

// The verbs of orders come most often, so they are tried first.
fn verb_route(verb: &[u8]) -> Route
    ensures { result ≡ spec.verb_route verb.now }
{
    if is_order(verb) {
        Route::Posted
    } else {
        other_route(verb)
    }
}

fn other_route(verb: &[u8]) -> Route
    ensures { result ≡ spec.verb_route verb.now }
{
    if same_bytes(verb, b"batch") {
        Route::Batch
    } else if same_bytes(verb, b"books") {
        Route::Look
    } else if is_body_verb(verb) {
        Route::Posted
    } else {
        Route::Missing
    }
}

fn is_body_verb(verb: &[u8]) -> bool
    ensures { result ≡ spec.is_body_verb verb.now }
{
    is_posted(verb) || (same_bytes(verb, b"enter") || same_bytes(verb, b"replace"))
}
