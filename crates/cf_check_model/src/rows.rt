//! Worked reports.

ghost use Rattle.std.specs.Prelude.{◌++◌};
ghost use Rattle.cf_check_model.specs.Judging.{accepts};
ghost use Rattle.cf_check_model.specs.Reports.{DeviceFails, device_line};
ghost use Rattle.cf_check_model.specs.Rows.{before_last, changed_report, inline_read, read_report};

/// The report of a script is accepted whole.
pub fn a_lawful_report_is_accepted()
    ensures { accepts inline_read read_report 15616 4 }
{}

/// A report with another last line, and one that lacks it, are accepted up to the event before.
pub fn the_front_of_a_changed_report_is_accepted()
    ensures changed { accepts inline_read changed_report 15616 3 }
    ensures cut { accepts inline_read before_last 15616 3 }
{}

/// The answer of a device that failed is found by its place among the lines of results.
pub fn a_device_answer_is_found_by_its_line()
    ensures { DeviceFails (before_last ++ device_line) 3 }
{}
