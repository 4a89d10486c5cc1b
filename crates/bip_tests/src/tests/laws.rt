use bip_bank::bank_laws;
use bip_component::component_laws;
use bip_draw::picture_laws;
use bip_frame::frame_laws;
use bip_ip::{node_laws, notify_laws};
use bip_model::{
    builder_laws, expression_laws, history_laws, partition_laws, priority_laws, step_laws,
};
use bip_observe::{offer_laws, verdict_laws};
use bip_partition::plan_laws;
use bip_reader::{line_laws, meaning_laws};
use bip_replay::{fault_laws, run_laws, trace_laws};
use bip_table::{lock_laws, table_laws};

#[test]
fn laws_can_be_called(_rt: HostRuntime) {
    builder_laws();
    expression_laws();
    history_laws();
    partition_laws();
    priority_laws();
    step_laws();
    plan_laws();
    offer_laws();
    verdict_laws();
    meaning_laws();
    line_laws();
    fault_laws();
    run_laws();
    trace_laws();
    picture_laws();
    table_laws();
    lock_laws();
    bank_laws();
    component_laws();
    notify_laws();
    node_laws();
    frame_laws();
}
