ghost use Rattle.std.specs.Prelude.{◌≡◌, ◌<◌, ◌^◌, All, Some, length, IfOk};
ghost use Rattle.usuba0.specs.Term.{bits_of_width};
ghost use Rattle.usuba_model.specs.Meaning.{plain_meaning};
ghost use Rattle.usuba_types.specs.Judged.{inputs_at};

use std::alloc::{AllocError, Global};
use tor_edge::List;
use usuba_plan::run;
use usuba_planner::plan_file;
use usuba_types::Judged;
use word_store::{Words, plan_gives_meaning};

/// The words of the outputs of a judged source's entry, for these words of its inputs.
pub fn eval(alloc: Global, judged: &Judged, inputs: &[u64]) -> Result<List<u64>, AllocError>
    requires count { length inputs.now ≡ inputs_at judged.now.file.defs judged.now.entry }
    requires words { All (λ x. x < 2 ^ bits_of_width judged.now.width) inputs.now }
    ensures { let program = judged.now in IfOk result (λ outputs.
        plain_meaning program.width (bits_of_width program.width) program.file program.entry inputs.now
        ≡ Some outputs) }
{
    plan_gives_meaning();
    let width = judged.width();
    let entry = judged.entry();
    let file = judged.file();
    let plans = plan_file(alloc, file, width, entry)?;
    let mut words = Words::new(width);
    let made = run(
        alloc,
        &mut words,
        file.defs.as_slice(),
        plans.as_slice(),
        entry,
        inputs,
    )?;
    Ok(List::from_vec(made))
}
