ghost use Rattle.tornado_main.specs.Coverage.{AttackOrFault, CFileOrFault, CoreOrFault, InputsOrFault, OutcomesAgree};
ghost use Rattle.tornado_main.specs.Coverage.{OrdersHaveOutcomes, RunDataOrFault};

use attack_cert::derivations_hold;
use attack_probes::unfolding_is_attack;
use attack_text::read_is_written as attack_read_is_written;
use c_form::masked_forms_exist;
use c_meaning::{file_or_fault as c_file_or_fault, one_file};
use core_refresh::refreshed_core_size;
use core_text::{core_or_fault, read_is_written, written_is_read};
use data_text::{run_or_fault, values_or_fault};
use generated_files::generated_is_clean;
use linear_view::attacks_are_the_views;
use refresh_place::attacks_on_refreshed_cores;
use source_cores::source_cores_are_cores;
use source_shapes::judged_takes_and_gives;
use source_terms::meanings_agree;
use span_model::left_columns_do_not_leak;
use usuba_model::judged_or_faulty;
use usuba_syntax::{file_or_fault, one_source};

/// Where the contents of files are told, they alone decide the status of an order.
pub fn outcomes_agree()
    ensures { OutcomesAgree }
{
    one_source();
    written_is_read();
    one_file();
}

/// All bytes have a core within both limits or a fault, whatever they are read as.
pub fn file_has_core_or_fault()
    ensures { CoreOrFault }
{
    file_or_fault();
    judged_or_faulty();
    judged_takes_and_gives();
    meanings_agree();
    core_or_fault();
    read_is_written();
}

/// All bytes spell an attack on a view, or have a fault as one.
pub fn file_has_attack_or_fault()
    ensures { AttackOrFault }
{}

/// All bytes say the inputs of a core, or have a fault as these.
pub fn file_has_inputs_or_fault()
    ensures { InputsOrFault }
{
    values_or_fault();
}

/// All bytes are a file of C, or have a fault as one.
pub fn file_is_c_or_fault()
    ensures { CFileOrFault }
{
    c_file_or_fault();
}

/// All bytes say the data of a run of a file of C, or have a fault as these.
pub fn file_has_run_data_or_fault()
    ensures { RunDataOrFault }
{
    run_or_fault();
}

/// An order whose files are held has an outcome that is an answer or a refusal of one of them.
pub fn orders_have_outcomes()
    ensures { OrdersHaveOutcomes }
{
    file_has_core_or_fault();
    file_has_attack_or_fault();
    file_has_inputs_or_fault();
    file_is_c_or_fault();
    file_has_run_data_or_fault();
    judged_takes_and_gives();
    meanings_agree();
    source_cores_are_cores();
    attacks_are_the_views();
    left_columns_do_not_leak::<u32>();
    derivations_hold::<u32>();
    unfolding_is_attack::<u32>();
    attack_read_is_written();
    attacks_on_refreshed_cores();
    refreshed_core_size();
    masked_forms_exist();
    generated_is_clean();
}
