//! Laws of the definitions.

ghost use Rattle.std.specs.Prelude.{◌≡◌, ℕ, Bool, List, Option};
ghost use Rattle.elasticlunr_lang.specs.Known.{language_name};
ghost use Rattle.elasticlunr_text.specs.Stages.{LeavesBy, names_by};
ghost use Rattle.elasticlunr_stem_stage.specs.Stemmed.{leaves_with, stages_with};
ghost use Rattle.elasticlunr.specs.Calls as calls;
ghost use Rattle.elasticlunr.specs.History.{Commands, none};
ghost use Rattle.elasticlunr.specs.Index.{choices_of, plan_of, StandsFor};
ghost use Rattle.elasticlunr.specs.Kept.{IsKeptDocument, KeptReads};
ghost use Rattle.elasticlunr.specs.ReadDocuments.{AreRead};
ghost use Rattle.elasticlunr_job.specs.Answer.{IsAnswer};
ghost use Rattle.elasticlunr_job.specs.Calls.{job_calls};
ghost use Rattle.elasticlunr_job.specs.Commands.{AreCommandsOf, language_tokens};
ghost use Rattle.elasticlunr_job.specs.Filled.{HasChoices, IsBuiltFor, IsMadeUnder};
ghost use Rattle.elasticlunr_job_format.specs.Job.{Job};
ghost use Rattle.elasticlunr_job_format.specs.Rules.{WordRules, stems_by};
ghost use Rattle.elasticlunr_job.specs.declared.outcome.Outcome.{Outcome};

use elasticlunr::Index;
use elasticlunr::lang::AnyLanguage;
use elasticlunr::laws::calls::{a_kept_language_makes_one_document, documents_of_calls_are_read};
use elasticlunr::laws::values::settings_and_commands_have_one_value;
pub use elasticlunr_job_format::laws::a_fault_is_no_job;

/// An input has one outcome, and one text is written for it.
pub fn one_answer()
    ensures outcome { (bytes : List ℕ) (o p : Outcome) (t u : List ℕ)
        → IsAnswer bytes o t → IsAnswer bytes p u → o ≡ p }
    ensures text { (bytes : List ℕ) (o p : Outcome) (t u : List ℕ)
        → IsAnswer bytes o t → IsAnswer bytes p u → t ≡ u }
{
    settings_and_commands_have_one_value();
    a_kept_language_makes_one_document();
}

/// What a job commands are its calls, and its language read the documents.
pub fn documents_of_a_job_are_read()
    ensures calls { (job : Job) (language : AnyLanguage) (commands : Commands)
        → AreCommandsOf job language commands
        → calls.AreCommandsOf (IsKeptDocument language job.fields job.reference_field)
        (job_calls job) commands }
    ensures read { (job : Job) (language : AnyLanguage) (commands : Commands)
        → AreCommandsOf job language commands
        → AreRead (KeptReads language) job.fields job.reference_field commands }
{
    documents_of_calls_are_read::<AnyLanguage>();
}

/// An index of the choices of a job, whose pipeline is the language's, with stems where the rules
/// say so, is built for the job under these rules.
pub fn an_index_is_built_for_a_job(index: &Index<AnyLanguage>)
    ensures { (pipeline : _) (rules : Option WordRules) (job : Job) (language : AnyLanguage)
        (stems : Bool) → stems ≡ stems_by rules
        → HasChoices job language pipeline (choices_of index.now)
        → names_by name_text pipeline ≡ stages_with stems language
        → LeavesBy leaves pipeline (leaves_with stems language)
        → StandsFor language_name name_text index.now none
        → IsBuiltFor rules job language (plan_of language_name name_text index.now)
        (IsMadeUnder rules job.fields language_tokens leaves index.now)
        (StandsFor language_name name_text index.now) }
{}
