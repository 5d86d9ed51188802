//! Laws over the definitions: each is the contract of a function that does nothing.
ghost use Rattle.std.specs.Prelude.{◌≡◌, Option};
ghost use Rattle.elasticlunr_text.specs.Text.{Text};
ghost use Rattle.elasticlunr_text.specs.Stages.{LeavesBy, LeavesOne};
ghost use Rattle.elasticlunr_lang.specs.Known.{language_name, language_leaves};
ghost use Rattle.elasticlunr_lang.specs.Meaning.{MeansAs};
ghost use Rattle.elasticlunr_lang.specs.declared.kept.english.English.{English};
ghost use Rattle.elasticlunr_lang.specs.declared.kept.arabic.Arabic.{Arabic};
ghost use Rattle.elasticlunr_lang.specs.declared.kept.danish.Danish.{Danish};
ghost use Rattle.elasticlunr_lang.specs.declared.kept.dutch.Dutch.{Dutch};
ghost use Rattle.elasticlunr_lang.specs.declared.kept.finnish.Finnish.{Finnish};
ghost use Rattle.elasticlunr_lang.specs.declared.kept.french.French.{French};
ghost use Rattle.elasticlunr_lang.specs.declared.kept.german.German.{German};
ghost use Rattle.elasticlunr_lang.specs.declared.kept.italian.Italian.{Italian};
ghost use Rattle.elasticlunr_lang.specs.declared.kept.korean.Korean.{Korean};
ghost use Rattle.elasticlunr_lang.specs.declared.kept.norwegian.Norwegian.{Norwegian};
ghost use Rattle.elasticlunr_lang.specs.declared.kept.portuguese.Portuguese.{Portuguese};
ghost use Rattle.elasticlunr_lang.specs.declared.kept.romanian.Romanian.{Romanian};
ghost use Rattle.elasticlunr_lang.specs.declared.kept.russian.Russian.{Russian};
ghost use Rattle.elasticlunr_lang.specs.declared.kept.spanish.Spanish.{Spanish};
ghost use Rattle.elasticlunr_lang.specs.declared.kept.swedish.Swedish.{Swedish};
ghost use Rattle.elasticlunr_lang.specs.declared.kept.turkish.Turkish.{Turkish};

use crate::any::AnyLanguage;
use crate::kept::{
    Arabic, Danish, Dutch, English, Finnish, French, German, Italian, Korean, Norwegian,
    Portuguese, Romanian, Russian, Spanish, Swedish, Turkish,
};
use crate::language::Language;
use elasticlunr_text::pipeline::Pipeline;

/// A variant of `AnyLanguage` means what the one definition of the built-in languages says of it,
/// and so does the type of its name.
pub fn a_type_means_what_its_variant_means()
    ensures any { (language : AnyLanguage) → MeansAs ⟦<AnyLanguage as Language>⟧ language language }
    ensures english { (language : English) → MeansAs ⟦<English as Language>⟧ language
        AnyLanguage.English }
    ensures arabic { (language : Arabic) → MeansAs ⟦<Arabic as Language>⟧ language
        AnyLanguage.Arabic }
    ensures danish { (language : Danish) → MeansAs ⟦<Danish as Language>⟧ language
        AnyLanguage.Danish }
    ensures dutch { (language : Dutch) → MeansAs ⟦<Dutch as Language>⟧ language AnyLanguage.Dutch }
    ensures finnish { (language : Finnish) → MeansAs ⟦<Finnish as Language>⟧ language
        AnyLanguage.Finnish }
    ensures french { (language : French) → MeansAs ⟦<French as Language>⟧ language
        AnyLanguage.French }
    ensures german { (language : German) → MeansAs ⟦<German as Language>⟧ language
        AnyLanguage.German }
    ensures italian { (language : Italian) → MeansAs ⟦<Italian as Language>⟧ language
        AnyLanguage.Italian }
    ensures korean { (language : Korean) → MeansAs ⟦<Korean as Language>⟧ language
        AnyLanguage.Korean }
    ensures norwegian { (language : Norwegian) → MeansAs ⟦<Norwegian as Language>⟧ language
        AnyLanguage.Norwegian }
    ensures portuguese { (language : Portuguese) → MeansAs ⟦<Portuguese as Language>⟧ language
        AnyLanguage.Portuguese }
    ensures romanian { (language : Romanian) → MeansAs ⟦<Romanian as Language>⟧ language
        AnyLanguage.Romanian }
    ensures russian { (language : Russian) → MeansAs ⟦<Russian as Language>⟧ language
        AnyLanguage.Russian }
    ensures spanish { (language : Spanish) → MeansAs ⟦<Spanish as Language>⟧ language
        AnyLanguage.Spanish }
    ensures swedish { (language : Swedish) → MeansAs ⟦<Swedish as Language>⟧ language
        AnyLanguage.Swedish }
    ensures turkish { (language : Turkish) → MeansAs ⟦<Turkish as Language>⟧ language
        AnyLanguage.Turkish }
{}

/// A name is the name of one of the built-in languages at most.
pub fn a_name_names_one_language()
    ensures { (one other : AnyLanguage) → language_name one ≡ language_name other → one ≡ other }
{}

/// The stages of a built-in language give a token one answer.
pub fn a_kept_language_leaves_one_answer()
    ensures { (language : AnyLanguage) (token : Text) (left other : Option Text)
        → language_leaves language token left → language_leaves language token other → left
        ≡ other }
{}

/// A language whose meaning is that of some pipeline, as `make_pipeline` says of the one that it
/// answers, gives a token one answer.
pub fn a_language_leaves_one_answer<L: Language>(language: &L, pipeline: &Pipeline)
    ensures { LeavesBy leaves pipeline.now (L.leaves_of language.now)
        → LeavesOne (L.leaves_of language.now) }
{}
