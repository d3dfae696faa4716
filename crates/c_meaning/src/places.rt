//! The places of the names among tokens.
ghost use Rattle.std.specs.Prelude.{◌≡◌, IfOk, vec_items};
ghost use Rattle.c_meaning.specs.Parts.{is_name};
ghost use Rattle.c_name_places.specs.Places.{names_at};

use c_tokens::{Token, TokenKind};
use std::alloc::{AllocError, Global};
use tor_edge::Place;

pub(crate) fn places_of(alloc: Global, tokens: &[Token]) -> Result<Vec<Place>, AllocError>
    ensures { IfOk result (λ places. vec_items places ≡ names_at tokens.now) }
{
    let mut places = Vec::new(alloc);
    for token in tokens {
        if is_name(&token.kind) {
            places.push(token.place)?;
        }
    }
    Ok(places)
}

fn is_name(kind: &TokenKind) -> bool
    ensures { result ≡ is_name kind.now }
{
    matches!(kind, TokenKind::Name(_))
}
