// Laws of the definitions.
ghost use Rattle.cf_judge.specs.Laws.{OneJudgement, PlainClassDecided, OneFirst, FormDecided, OneName};

use jv_base::forms_decided;

/// A file is in order, or it has one first fault, and not both.
pub fn one_judgement()
    ensures { OneJudgement }
{
    forms_decided();
}

/// At an index there is a class that is no array, or there is none.
pub fn plain_class_decided()
    ensures { PlainClassDecided }
{
    forms_decided();
}

/// Of two faults each is not behind the other only where they are the same.
pub fn one_first()
    ensures { OneFirst }
{}

/// At an index there is a text of the form, or some word says what is wrong.
pub fn form_decided()
    ensures { FormDecided }
{
    forms_decided();
}

/// Units spell one name at most.
pub fn one_name()
    ensures { OneName }
{}
