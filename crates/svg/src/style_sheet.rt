//! How the classes of shapes are painted.

/// The style sheet, and the marks that shapes refer to: a cross, a stop, and a head in the colour of each class that
/// has one.
const STYLE: &[u8] = b"<style>
:root{color-scheme:light dark}
text{font:12px sans-serif;fill:#24292f}
.title{font-weight:bold}
.remark{font-size:10px;paint-order:stroke;stroke:#fff;stroke-width:3px}
line,use{fill:none;stroke-width:1}
.axis,.life{stroke:#57606a}
.grid{stroke:#57606a;stroke-opacity:0.25}
.first{fill:#0072b2}
.second{fill:#e69f00}
.outage{fill:#d8dee4}
.crash{stroke:#d55e00;stroke-width:2}
.decision{fill:#009e73}
.detector{stroke:#0072b2}
.reduction{transform:translate(-2px);stroke:#e69f00;marker-end:url(#head2)}
.consensus{transform:translate(2px);stroke:#009e73;marker-end:url(#head3)}
.lost{stroke:#d55e00}
.dead{stroke:#8c959f;stroke-dasharray:5 3}
.late{stroke:#8c959f;stroke-dasharray:2 3}
.head{fill:#0072b2}
.head2{fill:#e69f00}
.head3{fill:#009e73}
.stop{fill:none;stroke:#d55e00}
@media(prefers-color-scheme:dark){
text{fill:#e6edf3}
.remark{stroke:#0d1117}
.axis,.life,.grid{stroke:#9da7b1}
.first{fill:#56b4e9}
.outage{fill:#30363d}
.detector{stroke:#56b4e9}
.head{fill:#56b4e9}
}
</style>
<defs>
<marker id=\"head\" viewBox=\"0 0 8 8\" refX=\"8\" refY=\"4\" markerWidth=\"7\" markerHeight=\"7\" orient=\"auto\">
<path class=\"head\" d=\"M0 0L8 4L0 8Z\"/>
</marker>
<marker id=\"head2\" viewBox=\"0 0 8 8\" refX=\"8\" refY=\"4\" markerWidth=\"7\" markerHeight=\"7\" orient=\"auto\">
<path class=\"head2\" d=\"M0 0L8 4L0 8Z\"/>
</marker>
<marker id=\"head3\" viewBox=\"0 0 8 8\" refX=\"8\" refY=\"4\" markerWidth=\"7\" markerHeight=\"7\" orient=\"auto\">
<path class=\"head3\" d=\"M0 0L8 4L0 8Z\"/>
</marker>
<marker id=\"stop\" viewBox=\"-4 -4 8 8\" markerWidth=\"8\" markerHeight=\"8\">
<path class=\"stop\" d=\"M-3 -3L3 3M3 -3L-3 3\"/>
</marker>
<path id=\"cross\" d=\"M-4 -4L4 4M4 -4L-4 4\"/>
</defs>
";

/// The style sheet and the marks that each document has, as SVG text.
pub fn style() -> &'static [u8] {
    STYLE
}
