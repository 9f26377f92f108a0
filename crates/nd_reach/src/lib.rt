//! `reach_is_all`: what a running cell can come to no more makes no difference to it.
#![tactic(auto)]

ghost use Rattle.nd_reach.specs.Reach.{EndIsAll, ReachIsAll};

/// Statements over two sessions that are the same in reach give the same, and leave sessions that
/// are the same in reach: a base that the cell made and no bound value lies in makes no difference.
pub fn reach_is_all()
    ensures { ReachIsAll }
{}

/// An end that is that of a cell in reach has its reads, its effects and its session.
pub fn end_is_all()
    ensures { EndIsAll }
{}
