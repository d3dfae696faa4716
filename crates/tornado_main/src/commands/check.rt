//! `check FILE`

ghost use Rattle.std.specs.Prelude.{◌≡◌, ◌∷◌, [], length, IfOk, MatchOption};
ghost use Rattle.span_model.specs.Columns.{set_of};
ghost use Rattle.span_model.specs.Attack.{IsLeak, HasAttack};
ghost use Rattle.usuba0.specs.Circuit.{IsCore, IsSmall, HasFewColumns};
ghost use Rattle.linear_view.specs.Names.{core_columns};
ghost use Rattle.linear_view.specs.View.{products_of};
ghost use Rattle.linear_view.specs.Rows.{core_products};
ghost use Rattle.attack_text.specs.AttackText.{attack_text_among};
ghost use Rattle.tornado_words.specs.Ranges.{HasFitWidth};
ghost use Rattle.tornado_main.specs.Ending.{Ends};
ghost use Rattle.tornado_main.specs.Findings.{IsAttackOver, IsTextOfAttack};
ghost use Rattle.tornado_main.specs.commands.Check.{CheckEnds};

use crate::answer::{Answer, Line, send};
use crate::cores::core_of_file;
use crate::refusal::Refusal;
use crate::status::Status;
use attack_cert::{derive, renaming_keeps_derivations};
use attack_model::Attack;
use attack_probes::{unfold, unfolding_is_attack};
use attack_text::{narrow_texts_are_whole, write_attack_among};
use gf2_span::BitRow;
use linear_view::{View, core_view_size, narrow_view, narrow_views_keep_attacks};
use std::alloc::{AllocError, Global};
use tightprove::{Verdict, search};
use tor_edge::{Files, PutFault, Sink};
use tornado_words::Basis;
use usuba0::Core;

/// Prints whether the core has an attack, and one that it has.
pub fn check<'a, F: Files, O: Sink>(
    alloc: Global,
    file: &'a str,
    basis: &Basis,
    files: &mut F,
    out: &mut O,
) -> Result<Status, Refusal<'a>>
    requires { HasFitWidth basis.now }
    ensures { Ends F.faults F.too_long F.refused F.fetched F.contents O.faults O.written (file.now ∷ [])
        (CheckEnds (F.contents files.old) file.now basis.now)
        files.old files.new out.old out.new result }
{
    let core = core_of_file(alloc, file, basis, files)?;
    match attack_on(alloc, &core)? {
        None => {
            send(&Line("secure\n"), out)?;
            Ok(Status::Done)
        }
        Some(found) => {
            send(&found, out)?;
            Ok(Status::Found)
        }
    }
}

// An attack that was found over a narrow view of a core, and how many columns the core has.
#[derive(Drop)]
struct Finding {
    columns: u32,
    view: View,
    attack: Attack,
    ghost leak: { length attack.derivation.leak ≡ length view.columns },
}

impl Answer for Finding {
    ghost text = { λ finding. attack_text_among finding.columns finding.view finding.attack };

    fn write<S: Sink>(&self, sink: &mut S) -> Result<(), PutFault> {
        write_attack_among(self.columns, &self.view, &self.attack, sink)
    }
}

// An attack on the core, if it has one.
fn attack_on(alloc: Global, core: &Core) -> Result<Option<Finding>, AllocError>
    requires core { IsCore core.now }
    requires within { IsSmall core.now × HasFewColumns core.now }
    ensures { IfOk result (λ found. MatchOption found (¬ HasAttack (core_products core.now))
        (λ finding. IsTextOfAttack core.now (attack_text_among finding.columns finding.view finding.attack))) }
{
    narrow_views_keep_attacks();
    renaming_keeps_derivations::<u32, u32>();
    narrow_texts_are_whole();
    let view = narrow_view(alloc, core)?;
    match search(alloc, &view)? {
        Verdict::Secure => Ok(None),
        Verdict::Leak(leak) => {
            let columns = column_count(core);
            let attack = attack_of_leak(alloc, &view, leak)?;
            Ok(Some(Finding {
                columns,
                view,
                attack,
            }))
        }
    }
}

// How many columns the core has.
fn column_count(core: &Core) -> u32
    requires { HasFewColumns core.now }
    ensures { result ≡ length (core_columns core.now) }
{
    core_view_size();
    let columns = (core.inputs() as usize + core.products() as usize + core.refreshes() as usize)
        * core.width() as usize;
    columns as u32
}

// The attack with this leak: its derivation, and what this unfolds to.
fn attack_of_leak(alloc: Global, view: &View, leak: BitRow) -> Result<Attack, AllocError>
    requires columns { length leak ≡ length view.now.columns }
    requires leak { IsLeak (products_of view.now) (set_of leak) }
    ensures { IfOk result (IsAttackOver view.now) }
{
    unfolding_is_attack::<u32>();
    let Some(derivation) = derive(alloc, view, leak)? else {
        unreachable!()
    };
    let listing = unfold(alloc, &derivation)?;
    Ok(Attack {
        derivation,
        listing,
    })
}
