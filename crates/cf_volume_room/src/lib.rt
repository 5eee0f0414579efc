//! Where a volume makes its commits for room, on a disk that wants one after a number of changes. A program whose disk wants one elsewhere
//! makes none. So a restart of it resumes what another run resumed that made its commit there, or none.
#![tactic(auto)]

mod laws;

pub use laws::{
    a_change_keeps_the_aim, a_commit_where_it_is_wanted_keeps_the_aim,
    a_volume_with_one_sure_point_is_aimed, the_newest_point_is_aimed_at,
};
