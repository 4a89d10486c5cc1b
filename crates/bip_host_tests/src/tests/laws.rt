use bip_host::inbox_laws;
use bip_words::word_laws;

#[test]
fn laws_can_be_called(_rt: HostRuntime) {
    word_laws();
    inbox_laws::<u64>();
}
