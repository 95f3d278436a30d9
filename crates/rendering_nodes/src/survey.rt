//! What is asked of nodes before they are printed.

ghost use Rattle.std.specs.Prelude.{◌≡◌};
ghost use Rattle.rendering_leaves.specs.Views.{form_view};
ghost use Rattle.rendering_nodes.specs.Admission.{nothing, both, words_survey, variable_survey, containing, group_survey, substitute_answers, substitute_survey};
ghost use Rattle.rendering_nodes.specs.Views.{survey_view};

use rendering_leaves::SpecialForm;

/// What is asked of nodes before they are printed.
#[derive(Clone, Copy, Debug, PartialEq, Eq)]
pub struct Survey {
    /// Whether one of them is printed.
    pub is_admitted: bool,
    /// Whether they call a variable.
    pub calls: bool,
    /// Whether a variable that they call has an answer.
    pub is_answered: bool,
    /// Whether the test `disambiguate` was evaluated on the way.
    pub met: bool,
}

impl Survey {
    /// What is asked where there is no node.
    pub(crate) fn nothing() -> Survey
        ensures { survey_view result ≡ nothing }
    {
        Survey {
            is_admitted: false,
            calls: false,
            is_answered: false,
            met: false,
        }
    }

    /// What is asked of a node that prints words of its own.
    pub(crate) fn of_words(is_admitted: bool) -> Survey
        ensures { survey_view result ≡ words_survey is_admitted }
    {
        Survey {
            is_admitted,
            calls: false,
            is_answered: false,
            met: false,
        }
    }

    /// What is asked of a node that prints the answer to a variable.
    pub(crate) fn of_variable(is_admitted: bool) -> Survey
        ensures { survey_view result ≡ variable_survey is_admitted }
    {
        Survey {
            is_admitted,
            calls: true,
            is_answered: is_admitted,
            met: false,
        }
    }

    /// What is asked of these nodes and of others together.
    pub(crate) fn with(self, others: Survey) -> Survey
        ensures { survey_view result ≡ both (survey_view self) (survey_view others) }
    {
        Survey {
            is_admitted: self.is_admitted || others.is_admitted,
            calls: self.calls || others.calls,
            is_answered: self.is_answered || others.is_answered,
            met: self.met || others.met,
        }
    }

    /// What is asked of the macro that consists of these nodes.
    pub(crate) fn of_macro(self) -> Survey
        ensures { survey_view result ≡ containing self.is_admitted (survey_view self) }
    {
        Survey {
            is_answered: self.is_admitted,
            ..self
        }
    }

    /// What is asked of the group of these nodes: it prints nothing where they call variables and none of these has an answer.
    pub(crate) fn of_group(self) -> Survey
        ensures { survey_view result ≡ group_survey (survey_view self) }
    {
        let is_admitted = self.is_admitted && !(self.calls && !self.is_answered);
        Survey {
            is_admitted,
            is_answered: is_admitted,
            ..self
        }
    }

    /// What is asked of the names whose substitute these nodes are.
    pub(crate) fn of_substitute(self, form: SpecialForm) -> Survey
        ensures { survey_view result ≡ substitute_survey (form_view form) (survey_view self) }
    {
        Survey {
            calls: true,
            is_answered: self.answers_as_substitute(form),
            ..self
        }
    }

    /// Whether what stands for names is an answer: all that is printed of it, where names are printed alone.
    fn answers_as_substitute(&self, form: SpecialForm) -> bool
        ensures { result ≡ substitute_answers (form_view form) (survey_view self.now) }
    {
        match form {
            SpecialForm::AuthorsAlone(_) => self.is_admitted,
            _ => self.is_answered,
        }
    }

    /// What is asked of these nodes as a branch, on the way to which the test `disambiguate` was evaluated, or not.
    pub(crate) fn after_tests(self, met: bool) -> Survey
        ensures { survey_view result ≡ both (record nothing { met = met }) (survey_view self) }
    {
        Survey {
            met: met || self.met,
            ..self
        }
    }
}
