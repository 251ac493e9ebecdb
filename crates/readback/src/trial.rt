// That there are answers, where there is memory for them: no clause says so. Expected is what was stored.
use crate::at_each_pair;
use std::test::Fail;

#[test]
fn read_back_at_each_pair(rt: HostRuntime) -> Result<(), Fail> {
    let pairs = at_each_pair(rt.alloc())?;
    for answers in [
        &pairs.words_under_prefix,
        &pairs.words_under_mask,
        &pairs.bytes_under_prefix,
        &pairs.bytes_under_mask,
    ] {
        assert_eq!(rt; answers.len(), 33);
        assert_eq!(rt; answers[11], Ok(-536_870_912));
        assert_eq!(rt; answers[12], Ok(4_294_967_295));
        assert_eq!(rt; answers[20], Ok(0));
        assert_eq!(rt; answers[28], Ok(536_870_911));
        assert_eq!(rt; answers[32], Ok(1));
    }
    Ok(())
}
