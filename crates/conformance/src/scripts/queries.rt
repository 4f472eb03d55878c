//! Scripts with queries that several tests run. Refusals of their words are scripts of the gallery.

pub(super) const COUNTED_THEN_CLEARED: &str = "target 4 4
d3 vb 0 0 0 10 20 30 40 262144 0 0 10 20 30 40 0 262144 0 10 20 30 40
d3 topology 4
d3 begin 0
d3 draw 3 0
d3 end 0
d3 clearc 1 2 3 4
d3 cleards 16777215 0
d3 finish 0
i exec d3 0 0
i query 0
i pixel 0 0
";

pub(super) const FOUR_TILES: &str = "target 33 33
i vb 0 0 0 1 1 1 1 2162688 0 0 2 2 2 2 0 2162688 0 3 3 3 3 2162688 2162688 0 4 4 4 4
i ib 1 3 2
i topology 4
i begin 2
i begin 0
i draw 3 0
i end 0
i begin 1
i drawi 3 0 0
i end 1
i end 2
i query 0
i query 1
i query 2
";

pub(super) const FOUR_TILES_ANSWERS: &str = "query 0 528
query 1 561
query 2 1089
";

// The list draws a back face, and the immediate context culls none.
pub(super) const LIST_INHERITS_NOTHING: &str = "target 4 4
d0 vb 0 0 0 9 9 9 9 0 262144 0 9 9 9 9 262144 0 0 9 9 9 9
d0 topology 4
d0 begin 0
d0 draw 3 0
d0 end 0
d0 finish 0
i vb 0 0 0 9 9 9 9 0 262144 0 9 9 9 9 262144 0 0 9 9 9 9
i topology 4
i raster 1 0 0
i exec d0 0 1
i query 0
i begin 0
i draw 3 0
i end 0
i query 0
";
