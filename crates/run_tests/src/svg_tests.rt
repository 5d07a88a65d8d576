//! Pictures, and their texts written by hand.
use crate::comparisons::{NO_MEMORY, is_made_of};
use std::alloc::Global;
use std::process::Abort;
use svg::{Anchor, Caption, Class, Picture, Point, Shape, style, svg_text};

const FROM: Point = Point { x: 1, y: 20 };

const TO: Point = Point { x: 300, y: 4000 };

/// A shape of each kind.
fn shapes_of(rt: &impl Abort, alloc: Global) -> Vec<Shape> {
    let (class, center) = (Class::Crash, FROM);
    let caption = Caption::copied(alloc, "a<b> & \"c\" isn't\t\u{e9}");
    let caption = caption.expect(rt, NO_MEMORY);
    let shapes = vec![in alloc;
        Shape::Line {
            class: Class::Axis,
            from: FROM,
            to: TO
        },
        Shape::Arrow {
            class: Class::Detector,
            from: TO,
            to: FROM
        },
        Shape::Stub {
            class: Class::Lost,
            from: FROM,
            to: TO
        },
        Shape::Rect {
            class: Class::First,
            corner: FROM,
            width: 7,
            height: 8
        },
        Shape::Disc {
            class: Class::Decision,
            center: TO,
            radius: 4_294_967_295
        },
        Shape::Cross { class, center },
        Shape::Text {
            class: Class::Label,
            at: TO,
            anchor: Anchor::Middle,
            caption,
        },
    ];
    shapes.expect(rt, NO_MEMORY)
}

const LINES: &str = "<line class=\"axis\" x1=\"1\" y1=\"20\" x2=\"300\" y2=\"4000\"/>
<line marker-end=\"url(#head)\" class=\"detector\" x1=\"300\" y1=\"4000\" x2=\"1\" y2=\"20\"/>
<line marker-end=\"url(#stop)\" class=\"lost\" x1=\"1\" y1=\"20\" x2=\"300\" y2=\"4000\"/>
";

const OTHERS: &str = "<rect class=\"first\" x=\"1\" y=\"20\" width=\"7\" height=\"8\"/>
<circle class=\"decision\" cx=\"300\" cy=\"4000\" r=\"4294967295\"/>
<use href=\"#cross\" class=\"crash\" x=\"1\" y=\"20\"/>
<text class=\"label\" x=\"300\" y=\"4000\" text-anchor=\"middle\">\
a&lt;b&gt; &amp; &quot;c&quot; isn&apos;t \u{e9}</text>
</svg>
";

/// What stands before the style sheet of a picture of 640 by 480 units.
const HEAD: &str = "<svg xmlns=\"http://www.w3.org/2000/svg\" role=\"img\" viewBox=\"0 0 640 480\" \
width=\"640\" height=\"480\">
";

/// A picture's text is its head, the style sheet, and a line for each shape.
#[test]
fn shapes(rt: HostRuntime) {
    let alloc = rt.alloc();
    let picture = Picture {
        width: 640,
        height: 480,
        shapes: shapes_of(&rt, alloc),
    };
    let text = svg_text(alloc, &picture).expect(&rt, NO_MEMORY);
    let style = std::str::from_utf8(style()).expect(&rt, "no text");
    is_made_of(&rt, &text, &[HEAD, style, LINES, OTHERS]);
}
