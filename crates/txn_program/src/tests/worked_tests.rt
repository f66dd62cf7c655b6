//! Runs of more than one link or end, each worked by hand: what the program answers, with ample
//! memory.

use crate::tests::run_over::A;
use crate::tests::run_tests::assert_run;

#[test]
fn another_link_cannot_discharge(rt: HostRuntime) {
    assert_run(
        &rt,
        &["run", A],
        "attach c 0\n\
         attach d 1\n\
         control 0 00537700533145\n\
         control 1 005377005332c01301a01000000000000000000000000000000001\n\
         control 0 005377005332c01301a01000000000000000000000000000000001\n",
        0,
        "attached 0\n\
         attached 1\n\
         declared 00000000000000000000000000000001\n\
         rejected unknown-id\n\
         accepted\n\
         stop done\n\
         handed 0\n",
    );
}

#[test]
fn a_link_end_aborts_its_id_which_is_declared_anew(rt: HostRuntime) {
    assert_run(
        &rt,
        &["run", A],
        "attach c 0\n\
         control 0 00537700533145\n\
         post 00000000000000000000000000000001 1 1 true - 50\n\
         link-end 0\n\
         attach d 1\n\
         control 1 00537700533145\n\
         post 00000000000000000000000000000001 1 2 true - 51\n\
         control 1 005377005332c01301a01000000000000000000000000000000001\n",
        0,
        "attached 0\n\
         declared 00000000000000000000000000000001\n\
         ok\n\
         link-ended\n\
         attached 1\n\
         declared 00000000000000000000000000000001\n\
         ok\n\
         accepted\n\
         stop done\n\
         handed 0\n\
         taken transfer 1 2 true - 51\n",
    );
}

#[test]
fn an_outside_payload_closes_its_link_and_aborts_its_id(rt: HostRuntime) {
    assert_run(
        &rt,
        &["run", A],
        "attach c 0\n\
         control 0 00537700533145\n\
         control 0 005377005333c00601a003010203\n\
         control 0 00537700533145\n\
         post 00000000000000000000000000000001 1 1 true - 50\n",
        1,
        "attached 0\n\
         declared 00000000000000000000000000000001\n\
         link-closed not-allowed\n\
         no-link\n\
         stop unknown-txn-id\n\
         handed 0\n",
    );
}

#[test]
fn a_post_under_a_dead_id_stops(rt: HostRuntime) {
    assert_run(
        &rt,
        &["run", A],
        "attach c 0\n\
         post 00000000000000000000000000000001 1 7 - - 61\n\
         flow -\n",
        1,
        "attached 0\n\
         stop unknown-txn-id\n\
         handed 0\n",
    );
}

#[test]
fn retirements_are_handed_settled_with_their_outcomes(rt: HostRuntime) {
    assert_run(
        &rt,
        &["run", A],
        "attach c 0\n\
         control 0 00537700533145\n\
         retire 00000000000000000000000000000001 receiver 3 5 false released\n\
         retire 00000000000000000000000000000001 receiver 6 - false -\n\
         control 0 005377005332c01301a01000000000000000000000000000000001\n",
        0,
        "attached 0\n\
         declared 00000000000000000000000000000001\n\
         ok\n\
         ok\n\
         accepted\n\
         stop done\n\
         handed 0\n\
         taken disposition receiver 3 5 true released\n\
         taken disposition receiver 6 - true -\n",
    );
}

#[test]
fn a_global_id_is_rejected_and_an_end_hands_nothing(rt: HostRuntime) {
    assert_run(
        &rt,
        &["run", A],
        "attach c 0\n\
         control 0 005377005331c00401a00101\n\
         control 0 00537700533145\n\
         post 00000000000000000000000000000001 1 1 true - 50\n\
         end\n",
        1,
        "attached 0\n\
         rejected unknown-id global-id\n\
         declared 00000000000000000000000000000001\n\
         ok\n\
         stop ended\n\
         handed 0\n",
    );
}
