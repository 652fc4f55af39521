// Info.
use bodies_rules::Range;

#[derive(Clone, Copy)]
pub struct Info {
    pub uid: Option<Range>,
    pub prev_uid: Option<Range>,
    pub next_uid: Option<Range>,
    // How many families it belongs to.
    pub families: u64,
    pub title: Option<Range>,
    // In units of the timestamp scale.
    pub duration: Option<f64>,
    // In nanoseconds. The crate has no field for it, and takes 1,000,000 where it is unset.
    pub timestamp_scale: Option<u64>,
    pub date_utc: Option<i64>,
    pub muxing_app: Option<Range>,
    pub writing_app: Option<Range>,
}
