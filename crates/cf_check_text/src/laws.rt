//! Laws of texts.

ghost use Rattle.std.specs.Prelude.{◌≡◌, ◌≤◌, ℕ, false, true, List, length, map, slice_get, ◌∷◌, ◌++◌};
ghost use Rattle.std.specs.List.{flat_map, list_all};
ghost use Rattle.cf_base.specs.declared.answers.Answer.{Answer};
ghost use Rattle.cf_base.specs.declared.answers.OpenedBook.{OpenedBook};
ghost use Rattle.cf_base.specs.declared.answers.Shown.TheVariants as shown;
ghost use Rattle.cf_base.specs.declared.codes.Code.{Code};
ghost use Rattle.cf_base.specs.declared.codes.Code.TheVariants as code;
ghost use Rattle.cf_base.specs.declared.ids.Rid.{Rid};
ghost use Rattle.cf_base.specs.declared.ids.Version.{Version};
ghost use Rattle.cf_base.specs.declared.notices.Notice.{Notice};
ghost use Rattle.cf_base.specs.declared.notices.Notice.TheVariants as notice;
ghost use Rattle.cf_base.specs.declared.notices.Sent.{Sent};
ghost use Rattle.cf_check_model.specs.Reports.{result_lines};
ghost use Rattle.cf_check_text.specs.Clean.{is_clean};
ghost use Rattle.cf_check_text.specs.Fronts.{Meet, is_remote_fault};
ghost use Rattle.cf_report.specs.Texts.{notice_line, result_line, text, texts};
ghost use Rattle.cf_report.specs.Words.{decimal};

/// No report begins with two texts of which the one has a line of a fault where the other has one of a message.
pub fn a_fault_is_told_from_a_message()
    ensures { (before : List Notice) (m : ℕ) (s : Sent) (after others : List Notice) (x y : List ℕ)
        → Meet (flat_map notice_line (before ++ notice.Fault m ∷ after) ++ x) (flat_map notice_line (before ++ notice.Message s ∷ others) ++ y) → ⊥ }
{}

/// No report begins with a refusal as RemoteFault and with another refusal, or with an answer of the remote.
pub fn a_fault_is_told_from_another_result()
    ensures refusal { (c : Code) → is_remote_fault c ≡ false → Meet (result_line (shown.Refused code.RemoteFault)) (result_line (shown.Refused c)) → ⊥ }
    ensures answer { (rid : Rid) (version : Version) → Meet (result_line (shown.Refused code.RemoteFault)) (result_line (shown.Remote rid version)) → ⊥ }
{}

/// Where one report begins with the results of two restarts, both have one count.
pub fn counts_of_restarts_are_told_apart()
    ensures { (n m : ℕ) (opened other : OpenedBook) → Meet (result_line (shown.Resumed n opened)) (result_line (shown.Resumed m other)) → n ≡ m }
{}

/// No two numbers are spelled alike.
pub fn numbers_are_spelled_apart()
    ensures { (n m : ℕ) → decimal n ≡ decimal m → n ≡ m }
{}

/// Answers in which no name has the byte 10 have one result line each, in order; so the next one of a report that begins with
/// them is the first of what follows.
pub fn each_clean_answer_has_one_result_line()
    ensures each { (answers : List Answer) (rest : List ℕ) → list_all is_clean answers ≡ true
        → result_lines (texts answers ++ rest) ≡ map (λ a. result_line a.shown) answers ++ result_lines rest }
    ensures next { (answers : List Answer) (rest : List ℕ) → list_all is_clean answers ≡ true
        → slice_get (result_lines (texts answers ++ rest)) (length answers) ≡ slice_get (result_lines rest) 0 }
{}

/// An answer's text has at least as many bytes as the answer has notices.
pub fn an_answer_has_a_byte_for_each_notice()
    ensures { (a : Answer) → length a.notes ≤ length (text a) }
{}
