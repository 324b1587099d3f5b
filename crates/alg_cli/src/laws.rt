//! Laws of what is written and read. Each is a function whose contract is the law.

ghost use Rattle.alg_cli.specs.OwnAnswers.{AnswersAreAccepted, CheckAccepts};
ghost use Rattle.alg_reading_back.specs.ReadingAnswers.{Migrates, ReadsBackWithAnswers};
ghost use Rattle.alg_reading_back.specs.ReadingBack.{ReadsBack};

/// The canonical text of a valid file without answers reads as that file, where no statement of the
/// text has more than 200 parentheses open at once.
pub fn reads_back()
    ensures { ReadsBack }
{
    alg_reading_back::laws::reads_back();
}

/// The canonical text of a valid file with answers that can be printed reads as that file with these
/// answers, where no statement of the text has more than 200 parentheses open at once.
pub fn reads_back_with_answers()
    ensures { ReadsBackWithAnswers }
{
    alg_reading_back::laws::reads_back_with_answers();
}

/// The text of the same file and answers with certificates in format 1 reads as these too.
pub fn migrates()
    ensures { Migrates }
{
    alg_reading_back::laws::migrates();
}

/// The answers to the goals of a valid file are accepted: on a proof the report is `ok proved`, on each
/// other answer by ring and by field `ok`, and by nsatz `unchecked`.
pub fn answers_are_accepted()
    ensures { AnswersAreAccepted }
{
    alg_nsatz::laws::proved_is_accepted();
}

/// The text of a valid file with the answers to its goals reads as the file with these answers, and
/// the reports on them are those of `answers_are_accepted`, where no statement of the text has more
/// than 200 parentheses open at once. Only an atom of a certificate may have more.
pub fn check_accepts()
    ensures { CheckAccepts }
{
    answers_are_accepted();
    reads_back_with_answers();
    alg_prover::laws::answers_are_printable();
    alg_reify::laws::field_terms_occur();
}
